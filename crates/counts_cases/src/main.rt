// Runs histories of calls of the counting writer, some for each sentence of 02, ticket 12, and prints what each call leaves, and what the walk
// finds in the bytes used. tools/cases/counts.py writes the input, whose operations it explains, and the expected output, the latter from a
// model of its own.
#![tactic(auto)]

use counting::Counted;
use counts::{Counts, Tally};
use input::read_input;
use refusal::Refusal;
use registers::Registers;
use std::io;
use std::io::{BufWriter, Read, Write};

// The bytes of an operation's header, and the most samples of one.
const HEADER: usize = 8;

const MOST_SAMPLES: usize = 16;

// An operation: a log begun empty, the calls of the writer, those that hand the next call a state that is not its own, and all of the log.
#[derive(Clone, Copy)]
enum Operation {
    Begin { capacity: usize },
    Command { id: u8, information: u16 },
    Count { place: usize, count: u64 },
    Mark { seconds: u32 },
    Tick,
    Set { apid: u8, samples: u16 },
    Report { bytes: usize },
    Show,
    Register { n: usize, value: u16 },
    Used { used: usize },
}

impl Operation {
    // The operation of a header: its number, a, b in two bytes and c in four.
    fn of(header: [u8; HEADER]) -> Operation {
        let [op, a, b_high, b_low, c_first, c_second, c_third, c_fourth] = header;
        let b = u16::from_be_bytes([b_high, b_low]);
        match op {
            0 => Operation::Begin {
                capacity: b as usize,
            },
            1 => Operation::Command {
                id: a,
                information: b,
            },
            2 => Operation::Count {
                place: a as usize,
                count: b as u64,
            },
            3 => Operation::Mark {
                seconds: u32::from_be_bytes([c_first, c_second, c_third, c_fourth]),
            },
            4 => Operation::Tick,
            5 => Operation::Set {
                apid: a,
                samples: b,
            },
            6 => Operation::Report { bytes: b as usize },
            7 => Operation::Show,
            8 => Operation::Register {
                n: a as usize,
                value: b,
            },
            _ => Operation::Used { used: b as usize },
        }
    }

    // The bytes of its data.
    fn data_length(self) -> usize {
        match self {
            Operation::Set { samples, .. } => 2 * samples as usize,
            Operation::Report { bytes } => bytes,
            _ => 0,
        }
    }
}

// What is kept between the calls beside the log.
#[derive(Clone, Copy)]
struct Kept {
    used: usize,
    tally: Tally,
}

// Prints a line that the expected output does not have, unless ok.
fn expect<W: Write>(writer: &mut W, ok: bool) -> io::Result<()> {
    if !ok {
        writer.write_all(b"bad input\n")?;
    }
    Ok(())
}

fn show_counts<W: Write>(writer: &mut W, counts: Counts) -> io::Result<()> {
    for count in counts.value {
        write!(writer, "{count:04x}")?;
    }
    Ok(())
}

fn show_registers<W: Write>(writer: &mut W, registers: Registers) -> io::Result<()> {
    for value in registers.value {
        write!(writer, "{value:04x}")?;
    }
    Ok(())
}

fn show_answer<W: Write>(writer: &mut W, answer: Result<usize, Refusal>) -> io::Result<()> {
    match answer {
        Ok(used) => write!(writer, "U{used:04x}"),
        Err(refusal) => write!(writer, "R{:04x}", refusal::number(refusal)),
    }
}

// Prints what the walk finds in a log.
fn show_walked<W: Write>(writer: &mut W, log: &[u8]) -> io::Result<()> {
    let count = counts::count_sets(log);
    match count.ending {
        Ok(_) => {
            writer.write_all(b"E")?;
            show_counts(writer, count.tally.counts)?;
            show_registers(writer, count.tally.registers)
        }
        Err(fault) => {
            let number = refusal::number(fault.refusal);
            write!(writer, "B{number:04x}{:04x}", fault.offset)
        }
    }
}

// Prints what the walk finds in the bytes used.
fn show_used<W: Write>(writer: &mut W, log: &[u8], used: usize) -> io::Result<()> {
    if used <= log.len() {
        show_walked(writer, &log[..used])
    } else {
        writer.write_all(b"-")
    }
}

// Prints all of a log.
fn show_log<W: Write>(writer: &mut W, log: &[u8]) -> io::Result<()> {
    writer.write_all(b"L ")?;
    for byte in log {
        write!(writer, "{byte:02x}")?;
    }
    writer.write_all(b"\n")
}

// Prints what a call left.
fn show_call<W: Write>(writer: &mut W, done: Counted, log: &[u8], used: usize) -> io::Result<Kept> {
    let tally = done.tally;
    // a refusal leaves the bytes used as they were
    let next = done.answer.unwrap_or(used);
    show_answer(writer, done.answer)?;
    writer.write_all(b" ")?;
    show_counts(writer, tally.counts)?;
    writer.write_all(b" ")?;
    show_registers(writer, tally.registers)?;
    writer.write_all(b" ")?;
    show_used(writer, log, next)?;
    writer.write_all(b"\n")?;
    Ok(Kept { used: next, tally })
}

// A set of the first samples, of two bytes each.
fn call_set(log: &mut [u8], kept: Kept, apid: u8, bytes: &[u8]) -> Counted {
    let mut samples = [0i16; MOST_SAMPLES];
    for (sample, pair) in samples.iter_mut().zip(bytes.chunks_exact(2)) {
        *sample = i16::from_be_bytes([pair[0], pair[1]]);
    }
    let n = (bytes.len() / 2).min(MOST_SAMPLES);
    counting::set(log, kept.used, kept.tally, apid, &samples[..n])
}

fn with_count(mut tally: Tally, place: usize, count: u64) -> Tally {
    if let Some(kept) = tally.counts.value.get_mut(place) {
        *kept = count;
    }
    tally
}

fn with_register(mut tally: Tally, n: usize, value: u16) -> Tally {
    if let Some(kept) = tally.registers.value.get_mut(n) {
        *kept = value;
    }
    tally
}

// One operation on a log.
fn operate<W: Write>(
    writer: &mut W,
    log: &mut [u8],
    kept: Kept,
    operation: Operation,
    bytes: &[u8],
) -> io::Result<Kept> {
    let Kept { used, tally } = kept;
    let done = match operation {
        Operation::Command { id, information } => {
            counting::command(log, used, tally, id, information)
        }
        Operation::Mark { seconds } => counting::mark(log, used, tally, seconds),
        Operation::Tick => counting::tick(log, used, tally),
        Operation::Set { apid, .. } => call_set(log, kept, apid, bytes),
        Operation::Report { .. } => counting::report(log, used, tally, bytes),
        Operation::Begin { .. } => return Ok(kept),
        Operation::Show => {
            show_log(writer, log)?;
            return Ok(kept);
        }
        Operation::Count { place, count } => {
            return Ok(Kept {
                used,
                tally: with_count(tally, place, count),
            });
        }
        Operation::Register { n, value } => {
            return Ok(Kept {
                used,
                tally: with_register(tally, n, value),
            });
        }
        Operation::Used { used } => return Ok(Kept { used, tally }),
    };
    show_call(writer, done, log, used)
}

// A log begun empty.
fn begun() -> Kept {
    Kept {
        used: 0,
        tally: Tally::empty(),
    }
}

// One operation on the front of log that the last begin gave it.
fn operate_front<W: Write>(
    writer: &mut W,
    log: &mut [u8],
    capacity: usize,
    kept: Kept,
    operation: Operation,
    bytes: &[u8],
) -> io::Result<Kept> {
    if capacity <= log.len() {
        operate(writer, &mut log[..capacity], kept, operation, bytes)
    } else {
        Ok(kept)
    }
}

// The operations of input.
fn run<W: Write>(writer: &mut W, input: &[u8], log: &mut [u8]) -> io::Result<()> {
    let mut rest = input;
    let mut capacity: usize = 0;
    let mut kept = begun();
    while let Some((header, data)) = rest.split_first_chunk::<HEADER>() {
        let operation = Operation::of(*header);
        let n = operation.data_length();
        if data.len() < n {
            return expect(writer, false);
        }
        match operation {
            Operation::Begin { capacity: room } => {
                capacity = room;
                kept = begun();
                log.fill(0xEE);
            }
            _ => kept = operate_front(writer, log, capacity, kept, operation, &data[..n])?,
        }
        rest = &data[n..];
    }
    expect(writer, rest.is_empty())
}

// Shows the cases of standard input, which is read into input.
fn show_input<R: Read, W: Write>(
    reader: &mut R,
    writer: &mut W,
    input: &mut [u8],
    log: &mut [u8],
) -> io::Result<()> {
    let Ok(n) = read_input(reader, input) else {
        return expect(writer, false);
    };
    run(writer, &input[..n], log)?;
    // the input ended there: input was large enough
    expect(writer, matches!(reader.read(log), Ok(0)))
}

fn main(rt: HostRuntime) -> io::Result<()> {
    let mut writer = BufWriter::new(rt.alloc(), io::writer(&rt))?;
    let mut reader = rt.stdin();
    let mut input = [0u8; 65536];
    let mut log = [0u8; 4096];
    show_input(&mut reader, &mut writer, &mut input, &mut log)?;
    writer.flush()
}
