// Packs and unpacks sets, appends to logs and reads logs, by the cases of standard input. tools/cases/log.py writes the input and the expected
// output, the latter from a model of its own. A case has 80 bytes. Its call, the APID or the kind of record, the number of samples or bytes
// handed in, and the length of the buffer or the number of records to read, a byte each; the body of a record (4); the bytes used or the place
// (8, high first); and what is handed in and the buffer (32 each), or a log (64). A sample is two bytes: it plus 32,768, high byte first.
// A line is the call, its answer, and the whole memory of the buffer afterwards, with what lies past the length lent; of a log, each answer
// and the reader's place after it.
#![tactic(auto)]

ghost use Rattle.std.specs.Prelude.{◌≤◌, IfOk};

use board_log::{Command, Entry, Kind, Record, Word};
use input::read_input;
use refusal::Refusal;
use std::io;
use std::io::{BufWriter, Write};

// Prints a line that the expected output does not have, unless ok.
fn expect<W: Write>(writer: &mut W, ok: bool) -> io::Result<()> {
    if !ok {
        writer.write_all(b"bad input\n")?;
    }
    Ok(())
}

// Prints bytes, two hexadecimal digits each, and a line end.
fn show_bytes<W: Write>(writer: &mut W, bytes: &[u8]) -> io::Result<()> {
    for byte in bytes {
        write!(writer, "{byte:02x}")?;
    }
    writer.write_all(b"\n")
}

// Prints samples in decimal, and a line end.
fn show_samples<W: Write>(writer: &mut W, samples: &[i16]) -> io::Result<()> {
    for sample in samples {
        write!(writer, " {sample}")?;
    }
    writer.write_all(b"\n")
}

fn show_refusal<W: Write>(writer: &mut W, refusal: Refusal) -> io::Result<()> {
    write!(writer, "refused {}", refusal::number(refusal))
}

fn show_written<W: Write>(writer: &mut W, written: Result<usize, Refusal>) -> io::Result<()> {
    match written {
        Ok(n) => write!(writer, "{n}"),
        Err(refusal) => show_refusal(writer, refusal),
    }
}

fn show_record<W: Write>(writer: &mut W, rec: Record) -> io::Result<()> {
    match rec {
        Record::Command(c) => write!(writer, "command {:02x} {:04x}", c.id, c.information),
        Record::Word(w) => write!(writer, "word {:02x} {:04x}", w.apid, w.bits),
        Record::SecondMark(seconds) => write!(writer, "mark {seconds}"),
        Record::Tick => write!(writer, "tick"),
    }
}

// Prints an answer, a record with the place after it.
fn show_answer<W: Write>(writer: &mut W, read: Result<Option<Entry>, Refusal>) -> io::Result<()> {
    match read {
        Ok(Some(entry)) => {
            show_record(writer, entry.record)?;
            write!(writer, " to {}", entry.next)
        }
        Ok(None) => write!(writer, "end"),
        Err(refusal) => show_refusal(writer, refusal),
    }
}

// A length that the case has; of more than most, most.
fn at_most<W: Write>(writer: &mut W, n: u8, most: usize) -> io::Result<usize>
    ensures { IfOk result (λ n. n ≤ most) }
{
    let length = n as usize;
    expect(writer, length <= most)?;
    Ok(length.min(most))
}

// Fills samples from bytes, two for each.
fn get_samples(bytes: &[u8], samples: &mut [i16]) {
    let (pairs, _) = bytes.as_chunks::<2>();
    for (sample, pair) in samples.iter_mut().zip(pairs) {
        *sample = u16::from_be_bytes(*pair).wrapping_sub(0x8000).cast_signed();
    }
}

// The bytes used, or the place, of a case.
fn number(case: &[u8; 80]) -> u64 {
    u64::from_be_bytes([
        case[8], case[9], case[10], case[11], case[12], case[13], case[14], case[15],
    ])
}

// The record of a kind, with the case's body.
fn record_of<W: Write>(writer: &mut W, kind: u8, case: &[u8; 80]) -> io::Result<Record> {
    match Kind::try_from(kind) {
        Ok(Kind::Command) => Ok(Record::Command(Command {
            id: case[4],
            information: words::pair(case[5], case[6]),
        })),
        Ok(Kind::Word) => Ok(Record::Word(Word {
            apid: case[4],
            bits: words::pair(case[5], case[6]),
        })),
        Ok(Kind::SecondMark) => Ok(Record::SecondMark(u32::from_be_bytes([
            case[4], case[5], case[6], case[7],
        ]))),
        Ok(Kind::Tick) => Ok(Record::Tick),
        Err(_) => {
            expect(writer, false)?;
            Ok(Record::Tick)
        }
    }
}

// Packs the samples into the case's buffer.
fn show_pack<W: Write>(
    writer: &mut W,
    apid: u8,
    samples: &[i16],
    case: &mut [u8; 80],
) -> io::Result<()> {
    let end = 48 + at_most(writer, case[3], 32)?;
    writer.write_all(b"pack ")?;
    show_written(writer, sets::pack(apid, samples, &mut case[48..end]))?;
    writer.write_all(b" ")?;
    show_bytes(writer, &case[48..])
}

// Unpacks the bytes of the case into the first of 16 samples.
fn show_unpack<W: Write>(
    writer: &mut W,
    apid: u8,
    case: &[u8; 80],
    samples: &mut [i16; 16],
) -> io::Result<()> {
    let end = 16 + at_most(writer, case[2], 32)?;
    let room = at_most(writer, case[3], 16)?;
    writer.write_all(b"unpack ")?;
    show_written(
        writer,
        sets::unpack(apid, &case[16..end], &mut samples[..room]),
    )?;
    show_samples(writer, samples)
}

// Appends the case's record to its buffer.
fn show_append<W: Write>(writer: &mut W, kind: u8, case: &mut [u8; 80]) -> io::Result<()> {
    let end = 48 + at_most(writer, case[3], 32)?;
    let used = number(case) as usize;
    let rec = record_of(writer, kind, case)?;
    writer.write_all(b"append ")?;
    show_written(writer, board_log::append(&mut case[48..end], used, rec))?;
    writer.write_all(b" ")?;
    show_bytes(writer, &case[48..])
}

// Reads a log from a place on, so many times, each by a reader at the place that the one before left.
fn show_log<W: Write>(writer: &mut W, log: &[u8], from: usize, times: u8) -> io::Result<()> {
    let mut at = from;
    writer.write_all(b"read")?;
    for _ in 0..times {
        let handed = reader::hand_out(log, at);
        at = handed.at;
        writer.write_all(b" ")?;
        show_answer(writer, handed.read)?;
        write!(writer, " at {at};")?;
    }
    writer.write_all(b"\n")
}

// Reads the case's log from its place on.
fn show_reading<W: Write>(writer: &mut W, case: &[u8; 80]) -> io::Result<()> {
    let end = 16 + at_most(writer, case[2], 64)?;
    show_log(writer, &case[16..end], number(case) as usize, case[3])
}

// Makes the call of a case and shows what it leaves.
fn show_case<W: Write>(
    writer: &mut W,
    case: &mut [u8; 80],
    samples: &mut [i16; 16],
) -> io::Result<()> {
    let key = case[1];
    match case[0] {
        1 => {
            get_samples(&case[16..48], samples);
            let n = at_most(writer, case[2], 16)?;
            show_pack(writer, key, &samples[..n], case)
        }
        2 => {
            get_samples(&case[48..], samples);
            show_unpack(writer, key, case, samples)
        }
        3 => show_append(writer, key, case),
        call => {
            expect(writer, call == 4)?;
            show_reading(writer, case)
        }
    }
}

// Shows the cases of standard input, which is read into input.
fn show_input<R: io::Read, W: Write>(
    reader: &mut R,
    writer: &mut W,
    input: &mut [u8],
) -> io::Result<()> {
    let Ok(n) = read_input(reader, input) else {
        return expect(writer, false);
    };
    let mut samples = [0i16; 16];
    let (cases, rest) = input[..n].as_chunks_mut::<80>();
    let whole = rest.is_empty();
    for case in cases {
        show_case(writer, case, &mut samples)?;
    }
    expect(writer, whole)
}

fn main(rt: HostRuntime) -> io::Result<()> {
    let mut writer = BufWriter::new(rt.alloc(), io::writer(&rt))?;
    let mut reader = rt.stdin();
    let mut input = [0u8; 65536];
    show_input(&mut reader, &mut writer, &mut input)?;
    writer.flush()
}
