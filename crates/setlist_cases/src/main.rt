// Lists the logs of standard input, some for each rule of 01 on the walk and the text, and then logs of ticks. tools/cases/setlist.py writes
// the input and the expected output, the latter from a model of its own.
#![tactic(auto)]

ghost use Rattle.std.specs.Prelude.{◌≡◌, length};

use input::read_input;
use std::io;
use std::io::{BufWriter, Read, Write};

// Prints a line that the expected output does not have, unless ok.
fn expect<W: Write>(writer: &mut W, ok: bool) -> io::Result<()> {
    if !ok {
        writer.write_all(b"bad input\n")?;
    }
    Ok(())
}

// Prints a text: one over 65,536 bytes by its length and its last 16 bytes.
fn print<W: Write>(writer: &mut W, text: &[u8]) -> io::Result<()> {
    let n = text.len();
    if n <= 65536 {
        return writer.write_all(text);
    }
    writeln!(writer, "{n}")?;
    writer.write_all(&text[n - 16..])
}

// Prints the listing of a log, made in out.
fn show<W: Write>(writer: &mut W, log: &[u8], out: &mut [u8]) -> io::Result<()> {
    match listing::listing(log, out) {
        Ok(n) => print(writer, &out[..n]),
        Err(_) => writer.write_all(b"refused\n"),
    }
}

// Shows each case of input: two bytes of length, high byte first, and the log.
fn show_cases<W: Write>(writer: &mut W, input: &[u8], out: &mut [u8]) -> io::Result<()> {
    let mut rest = input;
    while let Some((length, behind)) = rest.split_first_chunk() {
        let length = u16::from_be_bytes(*length) as usize;
        let Some((case, after)) = behind.split_at_checked(length) else {
            break;
        };
        show(writer, case, out)?;
        rest = after;
    }
    expect(writer, rest.is_empty())
}

// Shows the cases of standard input, which is read into input.
fn show_input<R: Read, W: Write>(
    reader: &mut R,
    writer: &mut W,
    input: &mut [u8],
    out: &mut [u8],
) -> io::Result<()> {
    let Ok(n) = read_input(reader, input) else {
        return expect(writer, false);
    };
    show_cases(writer, &input[..n], out)?;
    // the input ended there: input was large enough
    expect(writer, matches!(reader.read(out), Ok(0)))
}

// Shows the cases of standard input, and then logs of ticks: in small, which has 70 bytes, and the largest log in out.
fn show_all<R: Read, W: Write>(
    reader: &mut R,
    writer: &mut W,
    input: &mut [u8],
    ticks: &[u8],
    small: &mut [u8],
    out: &mut [u8],
) -> io::Result<()>
    requires { 65537 ≡ length ticks.now }
{
    show_input(reader, writer, input, out)?;
    // 2: the output has 6 bytes for each of the log and 64 more, or it is refused
    show_cases(writer, b"\x00\x01\x04\x00\x02\x04\x04", small)?;
    // 11: a log of 65,537 bytes
    show(writer, ticks, small)?;
    show(writer, &ticks[1..], out)
}

fn main(rt: HostRuntime) -> io::Result<()> {
    let mut writer = BufWriter::new(rt.alloc(), io::writer(&rt))?;
    let mut reader = rt.stdin();
    let mut input = [0u8; 65536];
    let ticks = [4u8; 65537];
    let mut small = [0u8; 70];
    let mut out = [0u8; 393280];
    show_all(
        &mut reader,
        &mut writer,
        &mut input,
        &ticks,
        &mut small,
        &mut out,
    )?;
    writer.flush()
}
