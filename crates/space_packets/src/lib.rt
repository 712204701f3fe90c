// Space packets of waveform sets (02, ticket 7; CCSDS 133.0-B): export and import.
#![tactic(auto)]

ghost use Rattle.std.specs.Prelude.{◌≡◌, ◌+◌, ◌*◌, ◌≤◌, ◌<◌, leb, length};
ghost use Rattle.refusal.specs.Outcome.{answer_outcome};
ghost use Rattle.lists.specs.Tables.{overwrite};
ghost use Rattle.fields.specs.BitFields.{FitWidths};
ghost use Rattle.space_packets.specs.Packet.{widths, field_numbers, primary_bytes, primary_in, packet_bytes, is_stated, is_whole, most_samples, packet_count, count_of, packets_bytes, packets_length};
ghost use Rattle.space_packets.specs.Calls.{header_taken, header_found, ImportLeft, packet_imported, ExportLeft, are_sets, sets_exported, packets_exported};

use refusal::Refusal;

// The bytes of a primary header, and the most bytes of a packet.
pub const HEADER: usize = 6;

const MOST_BYTES: usize = 4096;

// The greatest count: 0 comes after it.
const LAST_COUNT: u16 = 16383;

// The sequence flags of data that are not segmented.
const UNSEGMENTED: u8 = 3;

// The fields of a primary header.
#[derive(Clone, Copy)]
pub struct Primary {
    // the packet version number, the packet type and the secondary header flag
    pub version: u8,
    pub kind: u8,
    pub secondary: u8,
    pub apid: u16,
    // the sequence flags and the packet sequence count
    pub flags: u8,
    pub count: u16,
    // the packet data length: one less than the bytes of data
    pub length: u16,
}

// What a packet says of itself.
#[derive(Clone, Copy)]
pub struct PacketHeader {
    pub apid: u16,
    pub count: u16,
}

// What an import gives: the packet's header, and how many samples were written.
#[derive(Clone, Copy)]
pub struct Import {
    pub header: PacketHeader,
    pub samples: usize,
}

// What an export gives: the bytes written, and the count of the next packet.
#[derive(Clone, Copy)]
pub struct Export {
    pub bytes: usize,
    pub next: u16,
}

// The primary header of a packet.
fn primary_in(packet: &[u8]) -> Primary
    requires { 6 ≤ length packet.now }
    ensures { result ≡ primary_in packet.now }
{
    let identification = u16::from_be_bytes([packet[0], packet[1]]);
    let sequence = u16::from_be_bytes([packet[2], packet[3]]);
    Primary {
        version: (identification / 8192) as u8,
        kind: (identification / 4096 % 2) as u8,
        secondary: (identification / 2048 % 2) as u8,
        apid: identification % 2048,
        flags: (sequence / 16384) as u8,
        count: sequence % 16384,
        length: u16::from_be_bytes([packet[4], packet[5]]),
    }
}

// Writes the six bytes of a primary header at the front of a packet.
fn put_primary(primary: Primary, packet: &mut [u8])
    requires { FitWidths widths (field_numbers primary) × (6 ≤ length packet.old) }
    ensures { packet.new ≡ overwrite (primary_bytes primary) packet.old }
{
    let identification = primary.version as u16 * 8192
        + primary.kind as u16 * 4096
        + primary.secondary as u16 * 2048
        + primary.apid;
    let sequence = primary.flags as u16 * 16384 + primary.count;
    let [byte0, byte1] = identification.to_be_bytes();
    let [byte2, byte3] = sequence.to_be_bytes();
    let [byte4, byte5] = primary.length.to_be_bytes();
    packet[..HEADER].copy_from_slice(&[byte0, byte1, byte2, byte3, byte4, byte5]);
}

// Whether the version, the type, the secondary header flag and the sequence flags are as stated.
fn is_stated(primary: Primary) -> bool
    ensures { result ≡ is_stated primary }
{
    primary.version == 0
        && primary.kind == 0
        && primary.secondary == 0
        && primary.flags == UNSEGMENTED
}

// Whether so many bytes of data are those of the length field, not too many, whole sets and not empty.
fn is_whole(words: usize, field: u16, size: usize) -> bool
    requires { (0 < words) × (2 * words ≤ 4090) }
    ensures { result ≡ is_whole words field size }
{
    field as usize + 1 == size && size <= MOST_BYTES - HEADER && size % (2 * words) == 0
}

// The header of a packet by the words of a set. Refused by 22, then 23.
fn take_header(words: usize, primary: Primary, size: usize) -> Result<PacketHeader, Refusal>
    requires { (0 < words) × (2 * words ≤ 4090) }
    ensures { answer_outcome result ≡ header_taken words primary size }
{
    if !is_stated(primary) {
        Err(Refusal::WrongHeaderField)
    } else if !is_whole(words, primary.length, size) {
        Err(Refusal::WrongDataLength)
    } else {
        Ok(PacketHeader {
            apid: primary.apid,
            count: primary.count,
        })
    }
}

// The header of a packet. Refused by 23, then 4, then 22, then 23.
pub fn read_header(packet: &[u8]) -> Result<PacketHeader, Refusal>
    ensures { answer_outcome result ≡ header_found packet.now }
{
    if packet.len() < HEADER {
        return Err(Refusal::WrongDataLength);
    }
    let primary = primary_in(packet);
    let Ok(apid) = u8::try_from(primary.apid) else {
        return Err(Refusal::UnknownApid);
    };
    let words = words::set_words(apid)?;
    take_header(words, primary, packet.len() - HEADER)
}

// Imports a packet; answers its header and the number of samples written. Refused by 23, then 4, then 22, then 23, then 2.
pub fn import_packet(packet: &[u8], samples: &mut [i16]) -> Result<Import, Refusal>
    ensures { record { answer = answer_outcome result; samples = samples.new } ≡ packet_imported packet.now samples.old }
{
    let header = read_header(packet)?;
    let count = fields::get_samples(&packet[HEADER..], samples)?;
    Ok(Import {
        header,
        samples: count,
    })
}

// Writes one packet at the front of a list.
fn put_packet(apid: u8, count: u16, samples: &[i16], out: &mut [u8])
    requires { (count < 16384) × (0 < length samples.now) × (2 * length samples.now ≤ 4090) × (6 + 2 * length samples.now ≤ length out.old) }
    ensures { out.new ≡ overwrite (packet_bytes apid count samples.now) out.old }
{
    let size = 2 * samples.len();
    let primary = Primary {
        version: 0,
        kind: 0,
        secondary: 0,
        apid: apid as u16,
        flags: UNSEGMENTED,
        count,
        length: (size - 1) as u16,
    };
    put_primary(primary, out);
    // never refused: there is room
    let _ = fields::put_samples(samples, &mut out[HEADER..HEADER + size]);
}

// The most samples of a packet by the words of a set; those of the waveforms' sets without a division.
fn most_samples(words: usize) -> usize
    requires { (0 < words) × (2 * words ≤ 4090) }
    ensures { result ≡ most_samples words }
{
    match words {
        3 => 3 * ((MOST_BYTES - HEADER) / 6),
        7 => 7 * ((MOST_BYTES - HEADER) / 14),
        _ => words * ((MOST_BYTES - HEADER) / (2 * words)),
    }
}

// The packets of so many samples, of which a packet has the most given; one without a division.
fn packet_count(samples: usize, most: usize) -> usize
    requires { (0 < samples) × (0 < most) }
    ensures { result ≡ packet_count samples most }
{
    if samples <= most {
        1
    } else {
        samples.div_ceil(most)
    }
}

// Whether a list of so many bytes has room for the packets: six bytes for each, and two for each sample.
fn has_room(samples: usize, packets: usize, out: usize) -> bool
    ensures { result ≡ leb (6 * packets + 2 * samples) out }
{
    samples <= out / 2 && packets <= (out - 2 * samples) / HEADER
}

// The count after a count.
fn count_after(count: u16) -> u16
    requires { count < 16384 }
    ensures { result ≡ count_of count 1 }
{
    if count == LAST_COUNT {
        return 0;
    }
    count + 1
}

// Writes the packets of samples one after the other; answers the next count. One packet is written without a loop around it.
fn put_packets(
    apid: u8,
    first: u16,
    most: usize,
    packets: usize,
    samples: &[i16],
    out: &mut [u8],
) -> u16
    requires { (first < 16384) × (0 < most) × (2 * most ≤ 4090) × (packets ≡ packet_count (length samples.now) most) × (packets_length (length samples.now) most ≤ length out.old) }
    ensures { (result ≡ count_of first packets) × (out.new ≡ overwrite (packets_bytes apid first most samples.now) out.old) }
{
    if packets == 1 {
        put_packet(apid, first, samples, out);
        return count_after(first);
    }
    let mut count = first;
    for p in 0..packets {
        let from = p * most;
        let n = most.min(samples.len() - from);
        let at = HEADER * p + 2 * from;
        put_packet(
            apid,
            count,
            &samples[from..from + n],
            &mut out[at..at + (HEADER + 2 * n)],
        );
        count = count_after(count);
    }
    count
}

// Whether there are samples, and whole sets of them.
fn are_sets(words: usize, samples: usize) -> bool
    requires { 0 < words }
    ensures { result ≡ are_sets words samples }
{
    samples > 0 && samples % words == 0
}

// Exports sets of so many words. Refused by 22, then 23, then 2.
fn export_sets(
    apid: u8,
    words: usize,
    first: u16,
    samples: &[i16],
    out: &mut [u8],
) -> Result<Export, Refusal>
    requires { (0 < words) × (2 * words ≤ 4090) }
    ensures { record { answer = answer_outcome result; out = out.new } ≡ sets_exported words apid first samples.now out.old }
{
    if first > LAST_COUNT {
        return Err(Refusal::WrongHeaderField);
    }
    if !are_sets(words, samples.len()) {
        return Err(Refusal::WrongDataLength);
    }
    let most = most_samples(words);
    let packets = packet_count(samples.len(), most);
    if !has_room(samples.len(), packets, out.len()) {
        return Err(Refusal::WrongLength);
    }
    let next = put_packets(apid, first, most, packets, samples, out);
    Ok(Export {
        bytes: HEADER * packets + 2 * samples.len(),
        next,
    })
}

// Exports whole sets of a waveform APID as packets, the first with the count given; answers the number of bytes written and the next count.
// Refused by 4, then 22, then 23, then 2.
pub fn export_packets(
    apid: u8,
    first: u16,
    samples: &[i16],
    out: &mut [u8],
) -> Result<Export, Refusal>
    ensures { record { answer = answer_outcome result; out = out.new } ≡ packets_exported apid first samples.now out.old }
{
    let words = words::set_words(apid)?;
    export_sets(apid, words, first, samples, out)
}
