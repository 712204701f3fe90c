// Checks the command lists of standard input, some for each sentence of 02, ticket 6, and prints the line of each verdict.
// tools/cases/checklist.py writes the input and the expected output, the latter from a model of its own.
#![tactic(auto)]

use checker::Verdict;
use input::read_input;
use refusal::{Fault, Refusal};
use registers::Registers;
use std::io;
use std::io::{BufWriter, Read, Write};

// Prints a line that the expected output does not have, unless ok.
fn expect<W: Write>(writer: &mut W, ok: bool) -> io::Result<()> {
    if !ok {
        writer.write_all(b"bad input\n")?;
    }
    Ok(())
}

// A verdict that no list of this program has.
fn refused_at(offset: usize) -> Verdict {
    Verdict {
        judgement: Err(Fault {
            refusal: Refusal::UnknownCommand,
            offset,
        }),
        registers: Registers::reset(),
    }
}

// Prints the line of a verdict, made in out.
fn show<W: Write>(writer: &mut W, verdict: Verdict, out: &mut [u8]) -> io::Result<()> {
    match listing::verdict_line(verdict, out) {
        Ok(n) => writer.write_all(&out[..n]),
        Err(_) => writer.write_all(b"refused\n"),
    }
}

// Shows the verdict on each case of input: two bytes of length, high byte first, and the list.
fn show_cases<W: Write>(writer: &mut W, input: &[u8], out: &mut [u8]) -> io::Result<()> {
    let mut rest = input;
    while let Some((length, behind)) = rest.split_first_chunk() {
        let length = u16::from_be_bytes(*length) as usize;
        let Some((case, after)) = behind.split_at_checked(length) else {
            break;
        };
        show(writer, checker::check(case), out)?;
        rest = after;
    }
    expect(writer, rest.is_empty())
}

// Shows the cases of standard input, which is read into input.
fn show_input<R: Read, W: Write>(
    reader: &mut R,
    writer: &mut W,
    input: &mut [u8],
    out: &mut [u8],
) -> io::Result<()> {
    let Ok(n) = read_input(reader, input) else {
        return expect(writer, false);
    };
    show_cases(writer, &input[..n], out)?;
    // the input ended there: input was large enough
    expect(writer, matches!(reader.read(out), Ok(0)))
}

// Shows what refusal 2 of the line asks: 64 bytes of output, and an offset of at most ten digits.
fn show_limits<W: Write>(writer: &mut W, small: &mut [u8], out: &mut [u8]) -> io::Result<()> {
    show(writer, checker::check(b""), small)?;
    show(writer, refused_at(9999999999), out)?;
    show(writer, refused_at(10000000000), out)
}

fn main(rt: HostRuntime) -> io::Result<()> {
    let mut writer = BufWriter::new(rt.alloc(), io::writer(&rt))?;
    let mut reader = rt.stdin();
    let mut input = [0u8; 65536];
    let mut small = [0u8; 63];
    let mut out = [0u8; 64];
    show_input(&mut reader, &mut writer, &mut input, &mut out)?;
    show_limits(&mut writer, &mut small, &mut out)?;
    writer.flush()
}
