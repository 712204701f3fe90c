// Converts lists of totals, by the cases of standard input. tools/cases/coarse.py writes the input and the expected output, the latter from
// spectra and the frequency tables of document 002. A case has 907 bytes: the target's bin setting, the number of totals handed in and the
// length of the output lent, a byte each; then 113 totals, eight bytes each, high first. A line is the answer and the whole memory of the
// output afterwards, with what lies past the length lent.
#![tactic(auto)]

ghost use Rattle.std.specs.Prelude.{◌≡◌, ◌+◌, ◌*◌, ◌≤◌, length, IfOk};

use input::read_input;
use refusal::Refusal;
use std::io;
use std::io::{BufWriter, Read, Write};

// The bytes of a case.
const CASE: usize = 907;

// Prints a line that the expected output does not have, unless ok.
fn expect<W: Write>(writer: &mut W, ok: bool) -> io::Result<()> {
    if !ok {
        writer.write_all(b"bad input\n")?;
    }
    Ok(())
}

// A length that the case has; of more than most, most.
fn at_most<W: Write>(writer: &mut W, n: u8, most: usize) -> io::Result<usize>
    ensures { IfOk result (λ n. n ≤ most) }
{
    let length = n as usize;
    expect(writer, length <= most)?;
    Ok(length.min(most))
}

// Fills totals from bytes, eight for each, high byte first.
fn get_totals(bytes: &[u8], totals: &mut [u64]) {
    let (eights, _) = bytes.as_chunks::<8>();
    for (place, eight) in totals.iter_mut().zip(eights) {
        *place = u64::from_be_bytes(*eight);
    }
}

fn show_totals<W: Write>(writer: &mut W, totals: &[u64; 66]) -> io::Result<()> {
    for total in totals {
        write!(writer, " {total}")?;
    }
    writer.write_all(b"\n")
}

fn show_written<W: Write>(writer: &mut W, written: Result<usize, Refusal>) -> io::Result<()> {
    match written {
        Ok(n) => write!(writer, "{n}"),
        Err(refusal) => write!(writer, "refused {}", refusal::number(refusal)),
    }
}

// Converts the totals of a case, over an output that held 7 everywhere.
fn show_case<W: Write>(writer: &mut W, case: &[u8; CASE]) -> io::Result<()> {
    let mut fine = [0u64; 113];
    let mut out = [7u64; 66];
    let n = at_most(writer, case[1], 113)?;
    let room = at_most(writer, case[2], 66)?;
    get_totals(&case[3..], &mut fine);
    show_written(
        writer,
        coarse::coarse_totals(case[0], &fine[0..n], &mut out[0..room]),
    )?;
    show_totals(writer, &out)
}

// Shows each case of input.
fn show_cases<W: Write>(writer: &mut W, input: &[u8]) -> io::Result<()> {
    let (cases, rest) = input.as_chunks::<CASE>();
    for case in cases {
        show_case(writer, case)?;
    }
    expect(writer, rest.is_empty())
}

// Shows the cases of standard input, which is read into input.
fn show_input<R: Read, W: Write>(
    reader: &mut R,
    writer: &mut W,
    input: &mut [u8],
) -> io::Result<()> {
    let Ok(n) = read_input(reader, input) else {
        return expect(writer, false);
    };
    show_cases(writer, &input[..n])
}

fn main(rt: HostRuntime) -> io::Result<()> {
    let mut writer = BufWriter::new(rt.alloc(), io::writer(&rt))?;
    let mut reader = rt.stdin();
    let mut input = [0u8; 65536];
    show_input(&mut reader, &mut writer, &mut input)?;
    writer.flush()
}
