// The C interface of waveform sets, the log and the listing (include/dfb.h). Each function takes numbers and slices, a pointer and then
// a length in C, and answers a number. A refusal is a base plus its number, which no other answer of the function equals, and changes nothing.
#![tactic(auto)]

ghost use Rattle.std.specs.Prelude.{◌≡◌, ◌^◌, ◌<◌, [], ◌∷◌, cond, ltb, length};
ghost use Rattle.refusal.specs.Outcome.{answer_outcome, filled, given, refused};
ghost use Rattle.refusal.specs.Number.{number_of};
ghost use Rattle.sets.specs.Sets.{pack_outcome, unpack_outcome};
ghost use Rattle.listing.specs.Listing.{listing_outcome};
ghost use Rattle.dfb_refusals.specs.Numbers.{above16, above63, outcome_number, FilledNumber, filled_number, values_put};
ghost use Rattle.board_log.specs.Format.{kind_byte, kind_of};
ghost use Rattle.dfb_log.specs.Append.{narrow_record, append_kind};
ghost use Rattle.dfb_log.specs.Read.{a_of, b_of, record_read};

use board_log::{Command, Kind, Record, Word};
use refusal::Refusal;

// The answer of a call that writes a list.
fn written_16(written: Result<usize, Refusal>) -> u32
    requires { outcome_number above16 (answer_outcome written) < 2 ^ 32 }
    ensures { result ≡ outcome_number above16 (answer_outcome written) }
{
    match written {
        Ok(n) => n as u32,
        Err(refusal) => dfb_refusals::above_16(refusal),
    }
}

// The same of one whose answers have 63 bits.
pub fn written_63(written: Result<usize, Refusal>) -> u64
    ensures { result ≡ outcome_number above63 (answer_outcome written) }
{
    match written {
        Ok(n) => n as u64,
        Err(refusal) => dfb_refusals::above_63(refusal),
    }
}

// Packs one waveform set; answers the bytes written. Refused by 4, then 2.
pub fn dfb_pack(apid: u8, samples: &[i16], out: &mut [u8]) -> u32
    ensures { record { answer = result; buffer = out.new } ≡ filled_number above16 (pack_outcome apid samples.now out.old) }
{
    written_16(sets::pack(apid, samples, out))
}

// Unpacks one waveform set; answers the samples written. Refused by 4, then 2, then 5.
pub fn dfb_unpack(apid: u8, bytes: &[u8], samples: &mut [i16]) -> u32
    ensures { record { answer = result; buffer = samples.new } ≡ filled_number above16 (unpack_outcome apid bytes.now samples.old) }
{
    written_16(sets::unpack(apid, bytes, samples))
}

// The 16 bits that a command or a word has. Refused where b is over them.
fn narrow(b: u32, wide: Refusal) -> Result<u16, Refusal>
    ensures { answer_outcome result ≡ cond (ltb 0xFFFF b) (refused (number_of wide)) (given b) }
{
    u16::try_from(b).map_err(|_| wide)
}

// The record of a kind. A command or a word whose b is over 16 bits is refused by 1 or 4 for its ID or APID, then 2.
fn record_of(kind: Kind, a: u8, b: u32) -> Result<Record, Refusal>
    ensures { answer_outcome result ≡ narrow_record (kind_byte kind) a b }
{
    match kind {
        Kind::Command => {
            let wide = if registers::is_id(a) {
                Refusal::WrongLength
            } else {
                Refusal::UnknownCommand
            };
            let information = narrow(b, wide)?;
            Ok(Record::Command(Command { id: a, information }))
        }
        Kind::Word => {
            let wide = if words::is_apid(a) {
                Refusal::WrongLength
            } else {
                Refusal::UnknownApid
            };
            let bits = narrow(b, wide)?;
            Ok(Record::Word(Word { apid: a, bits }))
        }
        Kind::SecondMark => Ok(Record::SecondMark(b)),
        Kind::Tick => Ok(Record::Tick),
    }
}

// Appends the record of a kind's byte.
fn append_numbers(log: &mut [u8], used: usize, kind: u8, a: u8, b: u32) -> Result<usize, Refusal>
    ensures { filled result log.new ≡ append_kind log.old used kind a b }
{
    let kind = Kind::try_from(kind)?;
    let rec = record_of(kind, a, b)?;
    board_log::append(log, used, rec)
}

// Appends one record behind the bytes used; answers the new number of bytes used. Refused by 9, then 1 or 4 by the record, then 2.
pub fn dfb_append(log: &mut [u8], used: usize, kind: u8, a: u8, b: u32) -> u64
    ensures { record { answer = result; buffer = log.new } ≡ filled_number above63 (append_kind log.old used kind a b) }
{
    written_63(append_numbers(log, used, kind, a, b))
}

// Kind, a and b of a record, as append takes them.
fn numbers_of(rec: Record) -> [u32; 3]
    ensures { result ≡ kind_of rec ∷ a_of rec ∷ b_of rec ∷ [] }
{
    match rec {
        Record::Command(c) => [Kind::Command as u32, c.id as u32, c.information as u32],
        Record::Word(w) => [Kind::Word as u32, w.apid as u32, w.bits as u32],
        Record::SecondMark(seconds) => [Kind::SecondMark as u32, 0, seconds],
        Record::Tick => [Kind::Tick as u32, 0, 0],
    }
}

// Writes kind, a and b and answers the place. Refused by 2.
fn put_numbers(numbers: &mut [u32], place: usize, values: [u32; 3]) -> Result<usize, Refusal>
    ensures { filled result numbers.new ≡ values_put (record { number = place; values = values }) numbers.old }
{
    if numbers.len() < 3 {
        return Err(Refusal::WrongLength);
    }
    numbers[..3].copy_from_slice(&values);
    Ok(place)
}

// Reads one record at a place as numbers.
fn read_numbers(log: &[u8], at: usize, numbers: &mut [u32]) -> Result<usize, Refusal>
    ensures { filled result numbers.new ≡ record_read log.now at numbers.old }
{
    match board_log::read_at(log, at)? {
        Some(entry) => put_numbers(numbers, entry.next, numbers_of(entry.record)),
        None => put_numbers(numbers, at, [0, 0, 0]),
    }
}

// Reads one record at a place; answers the place after it, with kind, a and b in numbers[0..3] as dfb_append takes them. At the end kind
// is 0 and the place stays. Refused by 2, 9, 10, then 1 or 4, then 2 for a list under 3.
pub fn dfb_read_record(log: &[u8], at: usize, numbers: &mut [u32]) -> u64
    ensures { record { answer = result; buffer = numbers.new } ≡ filled_number above63 (record_read log.now at numbers.old) }
{
    written_63(read_numbers(log, at, numbers))
}

// Writes the listing of a log; answers the bytes of text. Refused by 2.
pub fn dfb_listing(log: &[u8], out: &mut [u8]) -> u64
    ensures { record { answer = result; buffer = out.new } ≡ filled_number above63 (listing_outcome log.now out.old) }
{
    written_63(listing::listing(log, out))
}
