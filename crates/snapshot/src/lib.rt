// One packet of a snapshot of the LFR (02, ticket 1; 000, TM_LF_RSWF): reader and writer.
#![tactic(auto)]

ghost use Rattle.std.specs.Prelude.{◌≡◌, ◌+◌, ◌≤◌, length};
ghost use Rattle.lists.specs.Tables.{overwrite};
ghost use Rattle.refusal.specs.Outcome.{filled, answer_outcome};
ghost use Rattle.fields.specs.Fields.{number_at};
ghost use Rattle.snapshot.specs.Packet.{header_bytes, header_in, sample_count, is_snapshot, in_range};
ghost use Rattle.snapshot.specs.Calls.{header_found, ReadLeft, packet_read, packet_written};

use refusal::Refusal;

// The bytes before the samples.
pub const HEADER: usize = 20;

// The SID of a regular snapshot, and the auxiliary length.
const SID: u8 = 33;

const AUXILIARY_LENGTH: u8 = 8;

// The greatest total of packets.
const MOST_PACKETS: u16 = 3072;

// What a packet says of itself.
#[derive(Clone, Copy)]
pub struct Header {
    // the coarse difference and the fine time
    pub coarse: u16,
    pub fine: u16,
    pub sequence: u16,
    // the switches at byte 8 and those at byte 12
    pub switches8: u32,
    pub switches12: u8,
    // the component mask
    pub mask: u8,
    // the total of packets
    pub total: u16,
    pub artefacts: u8,
    // the snapshot number and the packet number
    pub snapshot: u8,
    pub number: u16,
}

// What a packet gives: its header, and how many samples were written.
#[derive(Clone, Copy)]
pub struct Found {
    pub header: Header,
    pub count: usize,
}

// The samples of a packet by its mask: 128 for each component.
fn sample_count(mask: u8) -> usize
    ensures { result ≡ sample_count mask }
{
    128 * u8::count_ones(mask) as usize
}

// Whether the total and the packet number are in range.
fn is_in_range(header: Header) -> bool
    ensures { result ≡ in_range header }
{
    header.total <= MOST_PACKETS && header.number < header.total
}

// Whether the SID and the auxiliary length are a snapshot's.
fn is_snapshot(packet: &[u8]) -> bool
    requires { 20 ≤ length packet.now }
    ensures { result ≡ is_snapshot packet.now }
{
    packet[0] == SID && packet[7] == AUXILIARY_LENGTH
}

// The number of two bytes from a place on, high byte first.
fn pair_at(packet: &[u8], at: usize) -> u16
    requires { at + 2 ≤ length packet.now }
    ensures { result ≡ number_at 2 packet.now at }
{
    u16::from_be_bytes([packet[at], packet[at + 1]])
}

// The number of four.
fn quad_at(packet: &[u8], at: usize) -> u32
    requires { at + 4 ≤ length packet.now }
    ensures { result ≡ number_at 4 packet.now at }
{
    u32::from_be_bytes([packet[at], packet[at + 1], packet[at + 2], packet[at + 3]])
}

// The numbers in the fields of a packet.
fn header_in(packet: &[u8]) -> Header
    requires { 20 ≤ length packet.now }
    ensures { result ≡ header_in packet.now }
{
    Header {
        coarse: pair_at(packet, 1),
        fine: pair_at(packet, 3),
        sequence: pair_at(packet, 5),
        switches8: quad_at(packet, 8),
        switches12: packet[12],
        mask: packet[13],
        total: pair_at(packet, 14),
        artefacts: packet[16],
        snapshot: packet[17],
        number: pair_at(packet, 18),
    }
}

// The header of a packet. Refused by 16, then 14, then 15, then 16.
pub fn read_header(packet: &[u8]) -> Result<Header, Refusal>
    ensures { answer_outcome result ≡ header_found packet.now }
{
    if packet.len() < HEADER {
        return Err(Refusal::WrongPacketLength);
    }
    if !is_snapshot(packet) {
        return Err(Refusal::UnknownPacket);
    }
    let header = header_in(packet);
    if !is_in_range(header) {
        return Err(Refusal::PacketOutOfRange);
    }
    if packet.len() != HEADER + 2 * sample_count(header.mask) {
        return Err(Refusal::WrongPacketLength);
    }
    Ok(header)
}

// Reads a packet; answers its header and the number of samples written. Refused by 16, then 14, then 15, then 16, then 2.
pub fn read_packet(packet: &[u8], samples: &mut [i16]) -> Result<Found, Refusal>
    ensures { record { answer = answer_outcome result; samples = samples.new } ≡ packet_read packet.now samples.old }
{
    let header = read_header(packet)?;
    let count = fields::get_samples(&packet[HEADER..], samples)?;
    Ok(Found { header, count })
}

// The bytes of a header.
fn header_bytes(header: Header) -> [u8; 20]
    ensures { result ≡ header_bytes header }
{
    let [coarse_high, coarse_low] = header.coarse.to_be_bytes();
    let [fine_high, fine_low] = header.fine.to_be_bytes();
    let [sequence_high, sequence_low] = header.sequence.to_be_bytes();
    let [byte8, byte9, byte10, byte11] = header.switches8.to_be_bytes();
    let [total_high, total_low] = header.total.to_be_bytes();
    let [number_high, number_low] = header.number.to_be_bytes();
    [
        SID,
        coarse_high,
        coarse_low,
        fine_high,
        fine_low,
        sequence_high,
        sequence_low,
        AUXILIARY_LENGTH,
        byte8,
        byte9,
        byte10,
        byte11,
        header.switches12,
        header.mask,
        total_high,
        total_low,
        header.artefacts,
        header.snapshot,
        number_high,
        number_low,
    ]
}

// Writes the bytes of a header at the front of a packet.
fn put_header(header: Header, packet: &mut [u8])
    requires { 20 ≤ length packet.old }
    ensures { packet.new ≡ overwrite (header_bytes header) packet.old }
{
    packet[..HEADER].copy_from_slice(&header_bytes(header));
}

// Writes a packet; answers the number of bytes written. Refused by 15, then 16, then 2.
pub fn write_packet(header: Header, samples: &[i16], packet: &mut [u8]) -> Result<usize, Refusal>
    ensures { filled result packet.new ≡ packet_written header samples.now packet.old }
{
    let count = sample_count(header.mask);
    let length = HEADER + 2 * count;
    if !is_in_range(header) {
        Err(Refusal::PacketOutOfRange)
    } else if samples.len() != count {
        Err(Refusal::WrongPacketLength)
    } else if packet.len() < length {
        Err(Refusal::WrongLength)
    } else {
        put_header(header, packet);
        // never refused: there is room
        let _ = fields::put_samples(samples, &mut packet[HEADER..length]);
        Ok(length)
    }
}
