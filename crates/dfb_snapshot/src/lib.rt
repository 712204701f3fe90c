// The C interface of snapshots (02, ticket 1; include/dfb.h): a header is ten numbers.
#![tactic(auto)]

ghost use Rattle.std.specs.Prelude.{◌≡◌, true, ◌≤◌, length};
ghost use Rattle.lists.specs.Tables.{overwrite};
ghost use Rattle.dfb_refusals.specs.Numbers.{above16, FilledNumber, filled_number};
ghost use Rattle.dfb_snapshot.specs.Header.{header_numbers, header_of, header_taken};
ghost use Rattle.dfb_snapshot.specs.Calls.{ReadCall, read_call, write_call};

use refusal::Refusal;
use snapshot::Header;

// The length of a header.
const HEADER: usize = 10;

// The greatest number at each place of a header.
const LIMITS: [u32; 10] = [
    65535, 65535, 65535, 4294967295, 255, 255, 65535, 255, 255, 65535,
];

// Whether a list is ten numbers, each of which fits its bits.
fn is_header(header: &[u32]) -> bool
    ensures { result ≡ header_taken header.now }
{
    header.len() == HEADER && header.iter().zip(&LIMITS).all(|(n, most)| n <= most)
}

// The header of ten numbers.
fn load(header: &[u32]) -> Header
    requires { header_taken header.now ≡ true }
    ensures { result ≡ header_of header.now }
{
    Header {
        coarse: header[0] as u16,
        fine: header[1] as u16,
        sequence: header[2] as u16,
        switches8: header[3],
        switches12: header[4] as u8,
        mask: header[5] as u8,
        total: header[6] as u16,
        artefacts: header[7] as u8,
        snapshot: header[8] as u8,
        number: header[9] as u16,
    }
}

// Writes the ten numbers of a header at the front of a list.
fn store(header: &mut [u32], from: Header)
    requires { 10 ≤ length header.old }
    ensures { header.new ≡ overwrite (header_numbers from) header.old }
{
    header[..HEADER].copy_from_slice(&[
        from.coarse as u32,
        from.fine as u32,
        from.sequence as u32,
        from.switches8,
        from.switches12 as u32,
        from.mask as u32,
        from.total as u32,
        from.artefacts as u32,
        from.snapshot as u32,
        from.number as u32,
    ]);
}

// Reads one packet; answers the number of samples written. Refused by 16, then 14, then 15, then 16, then 2.
#[unsafe(no_mangle)]
pub extern "C" fn dfb_snapshot_read(packet: &[u8], header: &mut [u32], samples: &mut [i16]) -> u32
    ensures { record { answer = result; header = header.new; samples = samples.new } ≡ read_call packet.now header.old samples.old }
{
    if header.len() < HEADER {
        // the packet's own refusal comes first
        let refusal = snapshot::read_header(packet)
            .err()
            .unwrap_or(Refusal::WrongLength);
        return dfb_refusals::above_16(refusal);
    }
    match snapshot::read_packet(packet, samples) {
        Ok(found) => {
            store(header, found.header);
            found.count as u32
        }
        Err(refused) => dfb_refusals::above_16(refused),
    }
}

// Writes one packet; answers the number of bytes written. Refused by 2 for the header, then 15, then 16, then 2.
#[unsafe(no_mangle)]
pub extern "C" fn dfb_snapshot_write(header: &[u32], samples: &[i16], packet: &mut [u8]) -> u32
    ensures { record { answer = result; buffer = packet.new } ≡ filled_number above16 (write_call header.now samples.now packet.old) }
{
    if !is_header(header) {
        return dfb_refusals::above_16(Refusal::WrongLength);
    }
    match snapshot::write_packet(load(header), samples, packet) {
        Ok(n) => n as u32,
        Err(refusal) => dfb_refusals::above_16(refusal),
    }
}
