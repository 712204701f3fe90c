// Exports and imports space packets, by the cases of standard input. tools/cases/space_packets.py writes the input, whose cases it explains, and
// the expected output, the latter by hand and from a model of its own. A line is what the calls answer and, of the memory of the output with what
// lies past the length lent, a part and a sum over all.
#![tactic(auto)]

ghost use Rattle.std.specs.Prelude.{◌+◌, ◌≤◌, length};

use input::read_input;
use refusal::Refusal;
use space_packets::{Export, Import, PacketHeader};
use std::io;
use std::io::{BufWriter, Read, Write};

// The bytes of a case before its body.
const CASE: usize = 18;

// The memory of samples and of bytes, and what that of the output holds before a call.
const SAMPLES: usize = 6200;

const BYTES: usize = 12500;

const OLD_SAMPLE: i16 = 7777;

const OLD_BYTE: u8 = 0x77;

// Prints a line that the expected output does not have, unless ok.
fn expect<W: Write>(writer: &mut W, ok: bool) -> io::Result<()> {
    if !ok {
        writer.write_all(b"bad input\n")?;
    }
    Ok(())
}

// The 16 bits of a case from a place on.
fn number_at(case: &[u8], at: usize) -> u16
    requires { at + 2 ≤ length case.now }
{
    u16::from_be_bytes([case[at], case[at + 1]])
}

// The sample that a case gives plus 32,768.
fn sample_of(excess: u16) -> i16 {
    (excess as i32 - 32768) as i16
}

// A sample's own number: twice what it is without its sign, and one more of a negative one.
fn code(sample: i16) -> u64 {
    let twice = sample.unsigned_abs() as u64 * 2;
    if sample < 0 { twice + 1 } else { twice }
}

// One number more in a sum of 32 bits that depends on the order.
fn mixed(sum: u64, n: u64) -> u64 {
    (sum % 4294967291 * 31 + n % 4294967296) % 4294967291
}

fn sum_of_samples(samples: &[i16]) -> u64 {
    let mut sum = 0;
    for sample in samples {
        sum = mixed(sum, code(*sample));
    }
    sum
}

fn sum_of_bytes(bytes: &[u8]) -> u64 {
    let mut sum = 0;
    for byte in bytes {
        sum = mixed(sum, *byte as u64);
    }
    sum
}

// Fills samples from the bytes of a body, two for each.
fn take_samples(body: &[u8], samples: &mut [i16]) {
    for (sample, pair) in samples.iter_mut().zip(body.chunks_exact(2)) {
        *sample = sample_of(number_at(pair, 0));
    }
}

// Fills samples with a number plus 32,768 and a step more for each.
fn make_samples(start: u16, step: u16, samples: &mut [i16]) {
    let mut excess = start;
    for sample in samples {
        *sample = sample_of(excess);
        excess = excess.wrapping_add(step);
    }
}

// Fills bytes with the high bytes of a number and a step more for each.
fn make_bytes(start: u16, step: u16, bytes: &mut [u8]) {
    let mut n = start;
    for byte in bytes {
        *byte = n.to_be_bytes()[0];
        n = n.wrapping_add(step);
    }
}

fn show_refusal<W: Write>(writer: &mut W, refusal: Refusal) -> io::Result<()> {
    write!(writer, " refused {}", refusal::number(refusal))
}

fn show_header<W: Write>(writer: &mut W, header: PacketHeader) -> io::Result<()> {
    write!(writer, " {} {}", header.apid, header.count)
}

fn show_header_read<W: Write>(
    writer: &mut W,
    read: Result<PacketHeader, Refusal>,
) -> io::Result<()> {
    writer.write_all(b"header")?;
    match read {
        Ok(header) => show_header(writer, header)?,
        Err(refusal) => show_refusal(writer, refusal)?,
    }
    Ok(())
}

fn show_imported<W: Write>(writer: &mut W, imported: Result<Import, Refusal>) -> io::Result<()> {
    writer.write_all(b"; import")?;
    match imported {
        Ok(import) => {
            show_header(writer, import.header)?;
            write!(writer, " {}", import.samples)?;
        }
        Err(refusal) => show_refusal(writer, refusal)?,
    }
    writer.write_all(b";")
}

fn show_exported<W: Write>(writer: &mut W, exported: Result<Export, Refusal>) -> io::Result<()> {
    writer.write_all(b"export")?;
    match exported {
        Ok(export) => write!(writer, " {} {}", export.bytes, export.next)?,
        Err(refusal) => show_refusal(writer, refusal)?,
    }
    writer.write_all(b"; ")
}

// Prints the samples from a place on and below another, in decimal.
fn show_samples<W: Write>(
    writer: &mut W,
    samples: &[i16],
    from: usize,
    to: usize,
) -> io::Result<()> {
    expect(writer, to <= samples.len())?;
    for sample in samples.iter().take(to).skip(from) {
        write!(writer, " {sample}")?;
    }
    Ok(())
}

// Prints the bytes from a place on and below another, two hexadecimal digits each.
fn show_bytes<W: Write>(writer: &mut W, bytes: &[u8], from: usize, to: usize) -> io::Result<()> {
    expect(writer, to <= bytes.len())?;
    for byte in bytes.iter().take(to).skip(from) {
        write!(writer, "{byte:02x}")?;
    }
    Ok(())
}

// Exports samples to so many bytes of out.
fn export<W: Write>(
    writer: &mut W,
    apid: u8,
    first: u16,
    samples: &[i16],
    out: &mut [u8],
    lent: usize,
) -> io::Result<()> {
    match out.get_mut(..lent) {
        Some(out) => show_exported(
            writer,
            space_packets::export_packets(apid, first, samples, out),
        ),
        None => expect(writer, false),
    }
}

// Exports samples as the case says, and shows what is left in out.
fn show_export<W: Write>(
    writer: &mut W,
    case: &[u8; CASE],
    samples: &[i16],
    out: &mut [u8],
) -> io::Result<()> {
    out.fill(OLD_BYTE);
    let lent = number_at(case, 12) as usize;
    export(writer, case[1], number_at(case, 2), samples, out, lent)?;
    show_bytes(
        writer,
        out,
        number_at(case, 14) as usize,
        number_at(case, 16) as usize,
    )?;
    writeln!(writer, "; all {:08x}", sum_of_bytes(out))
}

// Imports a packet to so many samples.
fn import<W: Write>(
    writer: &mut W,
    packet: &[u8],
    samples: &mut [i16],
    lent: usize,
) -> io::Result<()> {
    match samples.get_mut(..lent) {
        Some(samples) => {
            show_header_read(writer, space_packets::read_header(packet))?;
            show_imported(writer, space_packets::import_packet(packet, samples))
        }
        None => expect(writer, false),
    }
}

// Imports a packet as the case says, and shows what is left in samples.
fn show_import<W: Write>(
    writer: &mut W,
    case: &[u8; CASE],
    packet: &[u8],
    samples: &mut [i16],
) -> io::Result<()> {
    samples.fill(OLD_SAMPLE);
    import(writer, packet, samples, number_at(case, 12) as usize)?;
    show_samples(
        writer,
        samples,
        number_at(case, 14) as usize,
        number_at(case, 16) as usize,
    )?;
    writeln!(writer, "; all {:08x}", sum_of_samples(samples))
}

// A case of export: the samples of its body, then those that it makes.
fn run_export<W: Write>(
    writer: &mut W,
    case: &[u8; CASE],
    body: &[u8],
    samples: &mut [i16],
    out: &mut [u8],
) -> io::Result<()> {
    let n = body.len() / 2;
    let more = number_at(case, 6) as usize;
    if samples.len() < n + more {
        return expect(writer, false);
    }
    take_samples(body, &mut samples[..n]);
    make_samples(
        number_at(case, 8),
        number_at(case, 10),
        &mut samples[n..n + more],
    );
    show_export(writer, case, &samples[..n + more], out)
}

// A case of import: the bytes of its body, then those that it makes.
fn run_import<W: Write>(
    writer: &mut W,
    case: &[u8; CASE],
    body: &[u8],
    samples: &mut [i16],
    packet: &mut [u8],
) -> io::Result<()>
    requires { length body.now ≤ 65535 }
{
    let n = body.len();
    let more = number_at(case, 6) as usize;
    if packet.len() < n + more {
        return expect(writer, false);
    }
    packet[..n].copy_from_slice(body);
    make_bytes(
        number_at(case, 8),
        number_at(case, 10),
        &mut packet[n..n + more],
    );
    show_import(writer, case, &packet[..n + more], samples)
}

fn run<W: Write>(
    writer: &mut W,
    case: &[u8; CASE],
    body: &[u8],
    samples: &mut [i16],
    bytes: &mut [u8],
) -> io::Result<()>
    requires { length body.now ≤ 65535 }
{
    if case[0] == 1 {
        run_import(writer, case, body, samples, bytes)?;
        return Ok(());
    }
    expect(writer, case[0] == 2)?;
    run_export(writer, case, body, samples, bytes)
}

// The cases of input.
fn run_all<W: Write>(
    writer: &mut W,
    input: &[u8],
    samples: &mut [i16],
    bytes: &mut [u8],
) -> io::Result<()> {
    let mut rest = input;
    while let Some((case, behind)) = rest.split_first_chunk::<CASE>() {
        let Some((body, next)) = behind.split_at_checked(number_at(case, 4) as usize) else {
            return expect(writer, false);
        };
        run(writer, case, body, samples, bytes)?;
        rest = next;
    }
    expect(writer, rest.is_empty())
}

// Shows the cases of standard input, which is read into input.
fn show_input<R: Read, W: Write>(
    reader: &mut R,
    writer: &mut W,
    input: &mut [u8],
    samples: &mut [i16],
    bytes: &mut [u8],
) -> io::Result<()> {
    let Ok(n) = read_input(reader, input) else {
        return expect(writer, false);
    };
    run_all(writer, &input[..n], samples, bytes)?;
    // the input ended there: input was large enough
    expect(writer, matches!(reader.read(bytes), Ok(0)))
}

fn main(rt: HostRuntime) -> io::Result<()> {
    let mut writer = BufWriter::new(rt.alloc(), io::writer(&rt))?;
    let mut reader = rt.stdin();
    let mut input = [0u8; 65536];
    let mut samples = [OLD_SAMPLE; SAMPLES];
    let mut bytes = [OLD_BYTE; BYTES];
    show_input(
        &mut reader,
        &mut writer,
        &mut input,
        &mut samples,
        &mut bytes,
    )?;
    writer.flush()
}
