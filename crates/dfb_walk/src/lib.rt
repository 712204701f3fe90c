// The C interface of the log walk (include/dfb.h): one item a call. The function takes slices, a pointer and then a length in C, and answers a
// number. A refusal is 2^63, 256 for each byte of its offset and its number, and changes nothing.
#![tactic(auto)]

ghost use Rattle.std.specs.Prelude.{◌≡◌, ◌^◌, ◌<◌, length, IfErr};
ghost use Rattle.walk.specs.Items.{bytes_of};
ghost use Rattle.dfb_refusals.specs.Numbers.{values_put};
ghost use Rattle.dfb_walk.specs.Next.{walk_numbers, item_numbers, is_outside, walk_left, walk_number, walk_next};
ghost use Rattle.dfb_walk.specs.Private.{narrowed, narrowed_walk, fault_number};

use board_log::Kind;
use refusal::{Fault, Refusal};
use registers::Registers;
use walk::{Item, Step, Walk};

// The numbers of a walk: place, records and seven registers.
const WALK: usize = 9;

// The numbers of an item: kind, offset, bytes, a and b.
const ITEM: usize = 5;

// What is refused before and after the walk, without an offset of its own.
const WRONG_LENGTH: Fault = Fault {
    refusal: Refusal::WrongLength,
    offset: 0,
};

// Whether the log is too long, the walk not of nine numbers, or its place too far for an offset.
fn is_outside(bytes: usize, walk: &[u64]) -> bool
    ensures { result ≡ is_outside bytes walk.now }
{
    dfb_refusals::TOO_LONG <= bytes
        || walk.len() != WALK
        || dfb_refusals::TOO_LONG as u64 <= walk[0]
}

// A register's 16 bits; of a wider number 0xFFFF, which no register stores. With a match the compiler narrows several at a time.
fn narrow(value: u64) -> u16
    ensures { result ≡ narrowed value }
{
    match u16::try_from(value) {
        Ok(register) => register,
        Err(_) => 0xFFFF,
    }
}

// The walk of nine numbers.
fn load(walk: &[u64]) -> Walk
    requires { length walk.now ≡ 9 }
    ensures { result ≡ narrowed_walk walk.now }
{
    Walk {
        at: walk[0] as usize,
        records: walk[1] as usize,
        registers: Registers {
            value: std::array::from_fn(|n| narrow(walk[2 + n])),
        },
    }
}

// Writes the nine numbers of a walk.
fn store(after: Walk, walk: &mut [u64])
    requires { length walk.old ≡ 9 }
    ensures { walk.new ≡ walk_numbers after }
{
    walk[0] = after.at as u64;
    walk[1] = after.records as u64;
    walk[2..].copy_from_slice(&after.registers.value.map(u64::from));
}

// The five numbers of an item: a is the ID of a command, the APID of a set or the seconds of a second mark; b the value that a command
// stored or the words of a set.
fn item_numbers(found: Item, offset: u64, bytes: u64) -> [u64; ITEM]
    requires { bytes ≡ bytes_of found }
    ensures { result ≡ item_numbers offset found }
{
    match found {
        Item::Command(c) => [
            Kind::Command as u64,
            offset,
            bytes,
            c.id as u64,
            c.stored as u64,
        ],
        Item::Waveform(s) | Item::Spectra(s) => [
            Kind::Word as u64,
            offset,
            bytes,
            s.apid as u64,
            s.words as u64,
        ],
        Item::SecondMark(seconds) => [Kind::SecondMark as u64, offset, bytes, seconds as u64, 0],
        Item::Tick => [Kind::Tick as u64, offset, bytes, 0, 0],
    }
}

// Writes five numbers to the front of the list. Refused by 2.
fn put_numbers(list: &mut [u64], numbers: [u64; ITEM]) -> Result<(), Fault>
    ensures put { record { answer = fault_number result; buffer = list.new } ≡ values_put (record { number = 0; values = numbers }) list.old }
    ensures near { IfErr result (λ f. f.offset < 2 ^ 55) }
{
    if list.len() < ITEM {
        return Err(WRONG_LENGTH);
    }
    list[..ITEM].copy_from_slice(&numbers);
    Ok(())
}

// Gives the item at the walk's place, or the end, and the walk after it.
fn give_next(log: &[u8], walk: &mut [u64], item: &mut [u64]) -> Result<(), Fault>
    ensures given { record { answer = fault_number result; walk = walk.new; item = item.new } ≡ walk_next log.now walk.old item.old }
    ensures near { IfErr result (λ f. f.offset < 2 ^ 55) }
{
    if is_outside(log.len(), walk) {
        return Err(WRONG_LENGTH);
    }
    let at = walk[0];
    let advance = walk::next(log, load(walk));
    match advance.step? {
        Step::Item(found) => {
            let bytes = advance.walk.at as u64 - at;
            put_numbers(item, item_numbers(found, at, bytes))?;
            store(advance.walk, walk);
            Ok(())
        }
        Step::End(records) => put_numbers(item, [0, at, 0, records as u64, 0]),
    }
}

// Gives the item at the walk's place in item[0..5] and the walk after it; answers 0. At the end the kind is 0 and the walk stays. Refused by
// 2 for a log of 2^55 bytes or more, a walk that is not of nine numbers or a place of 2^55 or more, then as the walk is, then by 2 for an
// item list under 5; the offset of these refusals 2 is 0.
#[unsafe(no_mangle)]
pub extern "C" fn dfb_walk_next(log: &[u8], walk: &mut [u64], item: &mut [u64]) -> u64
    ensures { walk_left result walk.new item.new ≡ walk_number (walk_next log.now walk.old item.old) }
{
    match give_next(log, walk, item) {
        Ok(()) => 0,
        Err(fault) => dfb_refusals::above_63_at(fault.refusal, fault.offset),
    }
}
