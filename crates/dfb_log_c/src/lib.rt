// The C functions of waveform sets, the log and the listing (include/dfb.h): the library's, exported under their names.
#![tactic(auto)]

ghost use Rattle.std.specs.Prelude.{◌≡◌};
ghost use Rattle.sets.specs.Sets.{pack_outcome, unpack_outcome};
ghost use Rattle.listing.specs.Listing.{listing_outcome};
ghost use Rattle.dfb_refusals.specs.Numbers.{above16, above63, FilledNumber, filled_number};
ghost use Rattle.dfb_log.specs.Append.{append_kind};
ghost use Rattle.dfb_log.specs.Read.{record_read};

// Packs one waveform set; answers the bytes written. Refused by 4, then 2.
#[unsafe(no_mangle)]
pub extern "C" fn dfb_pack(apid: u8, samples: &[i16], out: &mut [u8]) -> u32
    ensures { record { answer = result; buffer = out.new } ≡ filled_number above16 (pack_outcome apid samples.now out.old) }
{
    dfb_log::dfb_pack(apid, samples, out)
}

// Unpacks one waveform set; answers the samples written. Refused by 4, then 2, then 5.
#[unsafe(no_mangle)]
pub extern "C" fn dfb_unpack(apid: u8, bytes: &[u8], samples: &mut [i16]) -> u32
    ensures { record { answer = result; buffer = samples.new } ≡ filled_number above16 (unpack_outcome apid bytes.now samples.old) }
{
    dfb_log::dfb_unpack(apid, bytes, samples)
}

// Appends one record behind the bytes used; answers the new number of bytes used. Refused by 9, then 1 or 4 by the record, then 2.
#[unsafe(no_mangle)]
pub extern "C" fn dfb_append(log: &mut [u8], used: usize, kind: u8, a: u8, b: u32) -> u64
    ensures { record { answer = result; buffer = log.new } ≡ filled_number above63 (append_kind log.old used kind a b) }
{
    dfb_log::dfb_append(log, used, kind, a, b)
}

// Reads one record at a place; answers the place after it, with kind, a and b in numbers[0..3] as dfb_append takes them. At the end kind
// is 0 and the place stays. Refused by 2, 9, 10, then 1 or 4, then 2 for a list under 3.
#[unsafe(no_mangle)]
pub extern "C" fn dfb_read_record(log: &[u8], at: usize, numbers: &mut [u32]) -> u64
    ensures { record { answer = result; buffer = numbers.new } ≡ filled_number above63 (record_read log.now at numbers.old) }
{
    dfb_log::dfb_read_record(log, at, numbers)
}

// Writes the listing of a log; answers the bytes of text. Refused by 2.
#[unsafe(no_mangle)]
pub extern "C" fn dfb_listing(log: &[u8], out: &mut [u8]) -> u64
    ensures { record { answer = result; buffer = out.new } ≡ filled_number above63 (listing_outcome log.now out.old) }
{
    dfb_log::dfb_listing(log, out)
}
