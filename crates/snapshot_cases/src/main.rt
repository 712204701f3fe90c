// Reads and writes packets of snapshots, by the cases of standard input. tools/cases/snapshots.py writes the input, whose cases it explains, and
// the expected output, the latter by hand and from a model of its own. A line is what each call answers, and the memory of the output
// afterwards, with what lies past the length lent.
#![tactic(auto)]

ghost use Rattle.std.specs.Prelude.{◌+◌, ◌≤◌, length, IfOk};

use input::read_input;
use refusal::Refusal;
use snapshot::{Found, Header};
use std::io;
use std::io::{BufWriter, Read, Write};

// The bytes of a case before its body, and of the header in the body of a write.
const CASE: usize = 7;

const HEADER: usize = 18;

// The memory of samples and of bytes, and what it holds before a call.
const SAMPLES: usize = 1040;

const BYTES: usize = 2100;

const OLD_SAMPLE: i16 = 7777;

const OLD_BYTE: u8 = 0x77;

// Prints a line that the expected output does not have, unless ok.
fn expect<W: Write>(writer: &mut W, ok: bool) -> io::Result<()> {
    if !ok {
        writer.write_all(b"bad input\n")?;
    }
    Ok(())
}

// Prints bytes, two hexadecimal digits each, and a line end.
fn show_bytes<W: Write>(writer: &mut W, bytes: &[u8]) -> io::Result<()> {
    for byte in bytes {
        write!(writer, "{byte:02x}")?;
    }
    writer.write_all(b"\n")
}

// Prints samples in decimal, and a line end.
fn show_samples<W: Write>(writer: &mut W, samples: &[i16]) -> io::Result<()> {
    for sample in samples {
        write!(writer, " {sample}")?;
    }
    writer.write_all(b"\n")
}

fn show_refusal<W: Write>(writer: &mut W, refusal: Refusal) -> io::Result<()> {
    write!(writer, " refused {}", refusal::number(refusal))
}

// Prints a header in the order of the packet.
fn show_header<W: Write>(writer: &mut W, header: Header) -> io::Result<()> {
    write!(writer, " {:04x}", header.coarse)?;
    write!(writer, " {:04x}", header.fine)?;
    write!(writer, " {:04x}", header.sequence)?;
    write!(writer, " {:08x}", header.switches8)?;
    write!(writer, " {:02x}", header.switches12)?;
    write!(writer, " {:02x}", header.mask)?;
    write!(writer, " {:04x}", header.total)?;
    write!(writer, " {:02x}", header.artefacts)?;
    write!(writer, " {:02x}", header.snapshot)?;
    write!(writer, " {:04x}", header.number)
}

fn show_header_read<W: Write>(writer: &mut W, read: Result<Header, Refusal>) -> io::Result<()> {
    writer.write_all(b"header")?;
    match read {
        Ok(header) => show_header(writer, header)?,
        Err(refusal) => show_refusal(writer, refusal)?,
    }
    Ok(())
}

fn show_packet_read<W: Write>(writer: &mut W, read: Result<Found, Refusal>) -> io::Result<()> {
    writer.write_all(b"; read")?;
    match read {
        Ok(found) => {
            show_header(writer, found.header)?;
            write!(writer, " count {}", found.count)?;
        }
        Err(refusal) => show_refusal(writer, refusal)?,
    }
    writer.write_all(b";")
}

fn show_written<W: Write>(writer: &mut W, written: Result<usize, Refusal>) -> io::Result<()> {
    writer.write_all(b"write")?;
    match written {
        Ok(n) => write!(writer, " {n}")?,
        Err(refusal) => show_refusal(writer, refusal)?,
    }
    writer.write_all(b"; ")
}

// A length that the case has; of more than most, most.
fn at_most<W: Write>(writer: &mut W, n: u16, most: usize) -> io::Result<usize>
    ensures { IfOk result (λ n. n ≤ most) }
{
    let length = n as usize;
    expect(writer, length <= most)?;
    Ok(length.min(most))
}

// The number of 16 bits at a place.
fn pair_at(bytes: &[u8], at: usize) -> u16
    requires { at + 2 ≤ length bytes.now }
{
    u16::from_be_bytes([bytes[at], bytes[at + 1]])
}

// That of 32 bits.
fn quad_at(bytes: &[u8], at: usize) -> u32
    requires { at + 4 ≤ length bytes.now }
{
    u32::from_be_bytes([bytes[at], bytes[at + 1], bytes[at + 2], bytes[at + 3]])
}

// The sample that a case gives plus 32,768.
fn sample_of(excess: u16) -> i16 {
    (excess as i32 - 32768) as i16
}

// Fills samples from bytes, two for each.
fn get_samples(bytes: &[u8], samples: &mut [i16]) {
    for (sample, pair) in samples.iter_mut().zip(bytes.chunks_exact(2)) {
        *sample = sample_of(pair_at(pair, 0));
    }
}

// The number of samples in the body of a write.
fn sample_count<W: Write>(writer: &mut W, bytes: usize) -> io::Result<usize>
    requires { 18 ≤ bytes }
    ensures { IfOk result (λ n. n ≤ 1040) }
{
    let n = (bytes - HEADER) / 2;
    expect(writer, n <= SAMPLES)?;
    Ok(n.min(SAMPLES))
}

// The header in the body of a write.
fn header_of(body: &[u8]) -> Header
    requires { 18 ≤ length body.now }
{
    Header {
        coarse: pair_at(body, 0),
        fine: pair_at(body, 2),
        sequence: pair_at(body, 4),
        switches8: quad_at(body, 6),
        switches12: body[10],
        mask: body[11],
        total: pair_at(body, 12),
        artefacts: body[14],
        snapshot: body[15],
        number: pair_at(body, 16),
    }
}

// Reads a packet with so many samples lent, and shows so many.
fn show_read<W: Write>(writer: &mut W, packet: &[u8], lent: usize, shown: usize) -> io::Result<()>
    requires { (lent ≤ 1040) × (shown ≤ 1040) }
{
    let mut samples = [OLD_SAMPLE; SAMPLES];
    show_header_read(writer, snapshot::read_header(packet))?;
    show_packet_read(writer, snapshot::read_packet(packet, &mut samples[..lent]))?;
    show_samples(writer, &samples[..shown])
}

// Writes a packet with so many bytes lent, and shows so many.
fn show_write<W: Write>(
    writer: &mut W,
    header: Header,
    samples: &[i16],
    lent: usize,
    shown: usize,
) -> io::Result<()>
    requires { (lent ≤ 2100) × (shown ≤ 2100) }
{
    let mut packet = [OLD_BYTE; BYTES];
    show_written(
        writer,
        snapshot::write_packet(header, samples, &mut packet[..lent]),
    )?;
    show_bytes(writer, &packet[..shown])
}

// The same, of the body of a case.
fn show_write_of<W: Write>(writer: &mut W, body: &[u8], lent: usize, shown: usize) -> io::Result<()>
    requires { (18 ≤ length body.now) × (lent ≤ 2100) × (shown ≤ 2100) }
{
    let mut samples = [0i16; SAMPLES];
    let n = sample_count(writer, body.len())?;
    get_samples(&body[HEADER..], &mut samples[..n]);
    show_write(writer, header_of(body), &samples[..n], lent, shown)
}

// Makes the calls of a case and shows what they leave.
fn show_case<W: Write>(
    writer: &mut W,
    call: u8,
    lent: u16,
    shown: u16,
    body: &[u8],
) -> io::Result<()> {
    if call == 1 {
        let lent = at_most(writer, lent, SAMPLES)?;
        let shown = at_most(writer, shown, SAMPLES)?;
        return show_read(writer, body, lent, shown);
    }
    if call != 2 || body.len() < HEADER {
        return expect(writer, false);
    }
    let lent = at_most(writer, lent, BYTES)?;
    let shown = at_most(writer, shown, BYTES)?;
    show_write_of(writer, body, lent, shown)
}

// Shows each case of input.
fn show_cases<W: Write>(writer: &mut W, input: &[u8]) -> io::Result<()> {
    let mut rest = input;
    while let Some((case, behind)) = rest.split_first_chunk::<CASE>() {
        let Some((body, next)) = behind.split_at_checked(pair_at(case, 1) as usize) else {
            return expect(writer, false);
        };
        show_case(writer, case[0], pair_at(case, 3), pair_at(case, 5), body)?;
        rest = next;
    }
    expect(writer, rest.is_empty())
}

// Shows the cases of standard input, which is read into input.
fn show_input<R: Read, W: Write>(
    reader: &mut R,
    writer: &mut W,
    input: &mut [u8],
    more: &mut [u8],
) -> io::Result<()> {
    let Ok(n) = read_input(reader, input) else {
        return expect(writer, false);
    };
    show_cases(writer, &input[..n])?;
    // the input ended there: input was large enough
    expect(writer, matches!(reader.read(more), Ok(0)))
}

fn main(rt: HostRuntime) -> io::Result<()> {
    let mut writer = BufWriter::new(rt.alloc(), io::writer(&rt))?;
    let mut reader = rt.stdin();
    let mut input = [0u8; 65536];
    let mut more = [0u8; 4096];
    show_input(&mut reader, &mut writer, &mut input, &mut more)?;
    writer.flush()
}
