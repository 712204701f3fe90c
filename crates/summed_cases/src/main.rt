// Runs histories of calls that sum components, by the operations of standard input. tools/cases/sums.py writes the input, whose operations it
// explains, and the expected output, the latter by hand and from a model of its own. A line is what a call answers and what it leaves: the
// state, and of the whole memory of totals and output, with what lies past the lengths lent, one bin and a sum over all.
#![tactic(auto)]

ghost use Rattle.std.specs.Prelude.{◌+◌, ◌≤◌, length};

use input::read_input;
use refusal::Refusal;
use std::io;
use std::io::{BufWriter, Read, Write};
use summed::{SumState, Summed};

// The bytes of an operation.
const OPERATION: usize = 16;

// The memory of totals, of pairs and of the output, and what the latter holds at first.
const TOTALS: usize = 2056;

const PAIRS: usize = 2056;

const OUTPUT: usize = 4112;

const OLD_BYTE: u8 = 0x77;

// Prints a line that the expected output does not have, unless ok.
fn expect<W: Write>(writer: &mut W, ok: bool) -> io::Result<()> {
    if !ok {
        writer.write_all(b"bad input\n")?;
    }
    Ok(())
}

// The 16 bits of an operation from a place on.
fn pair_at(operation: &[u8], at: usize) -> u16
    requires { at + 2 ≤ length operation.now }
{
    u16::from_be_bytes([operation[at], operation[at + 1]])
}

// Its 32 bits from a place on.
fn quad_at(operation: &[u8], at: usize) -> u32
    requires { at + 4 ≤ length operation.now }
{
    u32::from_be_bytes([
        operation[at],
        operation[at + 1],
        operation[at + 2],
        operation[at + 3],
    ])
}

// The part that an operation gives plus 32,768.
fn part_of(excess: u16) -> i16 {
    (excess as i32 - 32768) as i16
}

// The parts of each bin: those of the first, and a step more for each bin.
fn put_pairs(pairs: &mut [i16], mut re: u16, re_step: u16, mut im: u16, im_step: u16) {
    for pair in pairs.chunks_exact_mut(2) {
        pair[0] = part_of(re);
        pair[1] = part_of(im);
        re = re.wrapping_add(re_step);
        im = im.wrapping_add(im_step);
    }
}

// One number more in a sum of 32 bits that depends on the order.
fn mixed(sum: u64, n: u64) -> u64 {
    (sum % 4294967291 * 31 + n % 4294967296 + n / 4294967296 * 7) % 4294967291
}

fn sum_of_totals(totals: &[u64]) -> u64 {
    let mut sum = 0;
    for total in totals {
        sum = mixed(sum, *total);
    }
    sum
}

fn sum_of_bytes(bytes: &[u8]) -> u64 {
    let mut sum = 0;
    for byte in bytes {
        sum = mixed(sum, *byte as u64);
    }
    sum
}

fn show_answer<W: Write>(writer: &mut W, answer: Result<usize, Refusal>) -> io::Result<()> {
    match answer {
        Ok(n) => write!(writer, "{n}"),
        Err(refusal) => write!(writer, "refused {}", refusal::number(refusal)),
    }
}

fn show_state<W: Write>(writer: &mut W, state: SumState) -> io::Result<()> {
    write!(
        writer,
        "; state {:02x} {:02x} {:02x}",
        state.next, state.first, state.second
    )
}

fn show_total<W: Write>(writer: &mut W, totals: &[u64], i: usize) -> io::Result<()> {
    match totals.get(i) {
        Some(total) => write!(writer, " {total}"),
        None => writer.write_all(b" "),
    }
}

// Prints two bytes of the output.
fn show_code<W: Write>(writer: &mut W, out: &[u8], at: usize) -> io::Result<()>
    requires { at ≤ 200000 }
{
    if at + 2 <= out.len() {
        write!(writer, " {:04x}", pair_at(out, at))?;
    }
    Ok(())
}

// Prints the memory's totals and codes of one bin, the bytes behind the codes, and the sums over all.
fn show_memory<W: Write>(writer: &mut W, totals: &[u64], out: &[u8], k: usize) -> io::Result<()>
    requires { k ≤ 65535 }
{
    writer.write_all(b"; totals")?;
    show_total(writer, totals, k)?;
    show_total(writer, totals, k + SumState::BINS)?;
    writer.write_all(b"; codes")?;
    show_code(writer, out, 2 * k)?;
    show_code(writer, out, 2 * (k + SumState::BINS))?;
    writer.write_all(b"; rest")?;
    show_code(writer, out, SumState::OUTPUT)?;
    let all_totals = sum_of_totals(totals);
    let all_bytes = sum_of_bytes(out);
    writeln!(writer, "; all {all_totals:08x} {all_bytes:08x}")
}

// Shows what a call left: the state after it.
fn show_call<W: Write>(
    writer: &mut W,
    done: Summed,
    totals: &[u64],
    out: &[u8],
    bin: usize,
) -> io::Result<SumState>
    requires { bin ≤ 65535 }
{
    show_answer(writer, done.answer)?;
    show_state(writer, done.state)?;
    show_memory(writer, totals, out, bin)?;
    Ok(done.state)
}

// The call of an operation, with the lists of the lengths that it has.
fn sum(
    state: SumState,
    totals: &mut [u64],
    pairs: &[i16],
    out: &mut [u8],
    operation: &[u8; OPERATION],
) -> Summed
    requires { 16 ≤ length operation.now }
{
    let first = operation[2];
    let second = operation[3];
    summed::sum_component(state, totals, operation[1], first, second, pairs, out)
}

// The call of an operation: the state after it.
fn call<W: Write>(
    writer: &mut W,
    state: SumState,
    totals: &mut [u64],
    pairs: &[i16],
    out: &mut [u8],
    operation: &[u8; OPERATION],
) -> io::Result<SumState> {
    let count = pair_at(operation, 4) as usize;
    let numbers = pair_at(operation, 6) as usize;
    let room = pair_at(operation, 8) as usize;
    if totals.len() < count || pairs.len() < numbers || out.len() < room {
        expect(writer, false)?;
        return Ok(state);
    }
    let done = sum(
        state,
        &mut totals[0..count],
        &pairs[0..numbers],
        &mut out[0..room],
        operation,
    );
    show_call(writer, done, totals, out, pair_at(operation, 10) as usize)
}

// The pairs of an operation.
fn give_pairs<W: Write>(
    writer: &mut W,
    pairs: &mut [i16],
    operation: &[u8; OPERATION],
) -> io::Result<()> {
    let from = pair_at(operation, 1) as usize;
    let to = pair_at(operation, 3) as usize;
    match pairs.get_mut(2 * from.min(to)..2 * to) {
        Some(bins) => put_pairs(
            bins,
            pair_at(operation, 5),
            pair_at(operation, 7),
            pair_at(operation, 9),
            pair_at(operation, 11),
        ),
        None => expect(writer, false)?,
    }
    Ok(())
}

// The totals of an operation.
fn give_totals<W: Write>(
    writer: &mut W,
    totals: &mut [u64],
    operation: &[u8; OPERATION],
) -> io::Result<()> {
    let from = pair_at(operation, 1) as usize;
    let to = pair_at(operation, 3) as usize;
    let value = quad_at(operation, 5) as u64 * 4294967296 + quad_at(operation, 9) as u64;
    match totals.get_mut(from.min(to)..to) {
        Some(range) => range.fill(value),
        None => expect(writer, false)?,
    }
    Ok(())
}

// Begins a history.
fn begin(totals: &mut [u64], out: &mut [u8]) -> SumState {
    totals.fill(0);
    out.fill(OLD_BYTE);
    SumState::start()
}

// One operation: the state after it.
fn operate<W: Write>(
    writer: &mut W,
    state: SumState,
    totals: &mut [u64],
    pairs: &mut [i16],
    out: &mut [u8],
    operation: &[u8; OPERATION],
) -> io::Result<SumState> {
    match operation[0] {
        0 => Ok(begin(totals, out)),
        1 => {
            give_pairs(writer, pairs, operation)?;
            Ok(state)
        }
        2 => {
            give_totals(writer, totals, operation)?;
            Ok(state)
        }
        4 => call(writer, state, totals, pairs, out, operation),
        kind => {
            expect(writer, kind == 3)?;
            Ok(SumState {
                next: operation[1],
                first: operation[2],
                second: operation[3],
            })
        }
    }
}

// The operations of input.
fn run<W: Write>(
    writer: &mut W,
    input: &[u8],
    totals: &mut [u64],
    pairs: &mut [i16],
    out: &mut [u8],
) -> io::Result<()> {
    let mut state = SumState::start();
    let (operations, rest) = input.as_chunks::<OPERATION>();
    for operation in operations {
        state = operate(writer, state, totals, pairs, out, operation)?;
    }
    expect(writer, rest.is_empty())
}

// Shows the cases of standard input, which is read into input.
fn show_input<R: Read, W: Write>(
    reader: &mut R,
    writer: &mut W,
    input: &mut [u8],
    totals: &mut [u64],
    pairs: &mut [i16],
    out: &mut [u8],
) -> io::Result<()> {
    let Ok(n) = read_input(reader, input) else {
        return expect(writer, false);
    };
    run(writer, &input[..n], totals, pairs, out)?;
    // the input ended there: input was large enough
    expect(writer, matches!(reader.read(out), Ok(0)))
}

fn main(rt: HostRuntime) -> io::Result<()> {
    let mut writer = BufWriter::new(rt.alloc(), io::writer(&rt))?;
    let mut reader = rt.stdin();
    let mut input = [0u8; 65536];
    let mut totals = [0u64; TOTALS];
    let mut pairs = [0i16; PAIRS];
    let mut out = [OLD_BYTE; OUTPUT];
    show_input(
        &mut reader,
        &mut writer,
        &mut input,
        &mut totals,
        &mut pairs,
        &mut out,
    )?;
    writer.flush()
}
