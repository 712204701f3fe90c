// The C interface of space packets (02, ticket 7; include/dfb.h).
#![tactic(auto)]

ghost use Rattle.std.specs.Prelude.{◌≡◌, ◌≤◌, length};
ghost use Rattle.lists.specs.Tables.{overwrite};
ghost use Rattle.dfb_space_packets.specs.Calls.{header_numbers, ExportCall, export_call, ImportCall, import_call};

use refusal::Refusal;
use space_packets::PacketHeader;

// The length of a count list.
const COUNT: usize = 1;

// The length of a header: APID and count.
const HEADER: usize = 2;

// Exports whole sets as packets; answers the number of bytes written, and leaves the next count in the count list. Refused by 2 for that list,
// then 4, then 22, then 23, then 2.
#[unsafe(no_mangle)]
pub extern "C" fn dfb_export_packets(
    apid: u8,
    count: &mut [u16],
    samples: &[i16],
    out: &mut [u8],
) -> u64
    ensures { record { answer = result; count = count.new; out = out.new } ≡ export_call apid count.old samples.now out.old }
{
    if count.len() != COUNT {
        return dfb_refusals::above_63(Refusal::WrongLength);
    }
    match space_packets::export_packets(apid, count[0], samples, out) {
        Ok(export) => {
            count[0] = export.next;
            export.bytes as u64
        }
        Err(refusal) => dfb_refusals::above_63(refusal),
    }
}

// Writes APID and count at the front of a list.
fn store(header: &mut [u16], from: PacketHeader)
    requires { 2 ≤ length header.old }
    ensures { header.new ≡ overwrite (header_numbers from) header.old }
{
    header[0] = from.apid;
    header[1] = from.count;
}

// Imports one packet; answers the number of samples written. Refused by 23, then 4, then 22, then 23, then 2.
#[unsafe(no_mangle)]
pub extern "C" fn dfb_import_packet(packet: &[u8], header: &mut [u16], samples: &mut [i16]) -> u32
    ensures { record { answer = result; header = header.new; samples = samples.new } ≡ import_call packet.now header.old samples.old }
{
    if header.len() < HEADER {
        // the packet's own refusal comes first
        let refusal = space_packets::read_header(packet)
            .err()
            .unwrap_or(Refusal::WrongLength);
        return dfb_refusals::above_16(refusal);
    }
    match space_packets::import_packet(packet, samples) {
        Ok(found) => {
            store(header, found.header);
            found.samples as u32
        }
        Err(refusal) => dfb_refusals::above_16(refusal),
    }
}
