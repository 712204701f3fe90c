// The C interface of counted logs (include/dfb.h). Each function takes numbers and slices, a pointer and then a length in C, and answers a
// number. A refusal is 2^63 and its number, of dfb_count_sets also 256 for each byte of its offset, and changes nothing.
#![tactic(auto)]

ghost use Rattle.std.specs.Prelude.{◌≡◌, ◌≤◌, length};
ghost use Rattle.lists.specs.Tables.{overwrite};
ghost use Rattle.counting.specs.Writer.{command, mark, tick, set, report};
ghost use Rattle.dfb_counts.specs.Calls.{lists_left, call_left, counted_call, tally_put, count_answer, count_number};
ghost use Rattle.dfb_counts.specs.Private.{tally_loaded};

use counts::{Counts, Tally};
use refusal::Refusal;
use registers::Registers;

// The counts and registers of two lists, if both have seven numbers.
fn load(counts: &[u64], registers: &[u16]) -> Option<Tally>
    ensures { result ≡ tally_loaded counts.now registers.now }
{
    if counts.len() != Counts::LENGTH || registers.len() != Registers::COUNT {
        return None;
    }
    Some(Tally {
        counts: Counts {
            value: std::array::from_fn(|n| counts[n]),
        },
        registers: Registers {
            value: std::array::from_fn(|n| registers[n]),
        },
    })
}

// Writes the seven counts to the front of the list.
fn put_counts(counts: Counts, list: &mut [u64])
    requires { 7 ≤ length list.old }
    ensures { list.new ≡ overwrite counts.value list.old }
{
    list[..Counts::LENGTH].copy_from_slice(&counts.value);
}

// Writes the seven registers to the front of the list.
fn put_registers(registers: Registers, list: &mut [u16])
    requires { 7 ≤ length list.old }
    ensures { list.new ≡ overwrite registers.value list.old }
{
    list[..Registers::COUNT].copy_from_slice(&registers.value);
}

// Appends a command; answers the new number of bytes used. Refused by 2 for the lists' lengths, then 3, 1, 2.
#[unsafe(no_mangle)]
pub extern "C" fn dfb_counted_command(
    log: &mut [u8],
    used: usize,
    counts: &mut [u64],
    registers: &mut [u16],
    id: u8,
    information: u16,
) -> u64
    ensures { call_left log.new (lists_left result counts.new registers.new) ≡ counted_call log.old used counts.old registers.old (command id information) }
{
    let Some(tally) = load(counts, registers) else {
        return dfb_refusals::above_63(Refusal::WrongLength);
    };
    let done = counting::command(log, used, tally, id, information);
    put_registers(done.tally.registers, registers);
    dfb_log::written_63(done.answer)
}

// Appends a second mark; answers as above. Refused by 2 for the lists' lengths, then 3, 2.
#[unsafe(no_mangle)]
pub extern "C" fn dfb_counted_mark(
    log: &mut [u8],
    used: usize,
    counts: &mut [u64],
    registers: &mut [u16],
    seconds: u32,
) -> u64
    ensures { call_left log.new (lists_left result counts.new registers.new) ≡ counted_call log.old used counts.old registers.old (mark seconds) }
{
    let Some(tally) = load(counts, registers) else {
        return dfb_refusals::above_63(Refusal::WrongLength);
    };
    let done = counting::mark(log, used, tally, seconds);
    dfb_log::written_63(done.answer)
}

// Appends a tick; answers as above. Refused by 2 for the lists' lengths, then 3, 2.
#[unsafe(no_mangle)]
pub extern "C" fn dfb_counted_tick(
    log: &mut [u8],
    used: usize,
    counts: &mut [u64],
    registers: &mut [u16],
) -> u64
    ensures { call_left log.new (lists_left result counts.new registers.new) ≡ counted_call log.old used counts.old registers.old tick }
{
    let Some(tally) = load(counts, registers) else {
        return dfb_refusals::above_63(Refusal::WrongLength);
    };
    let done = counting::tick(log, used, tally);
    dfb_log::written_63(done.answer)
}

// Appends a waveform set; answers as above. Refused by 2 for the lists' lengths, then 3, 4, 5, 2.
#[unsafe(no_mangle)]
pub extern "C" fn dfb_counted_set(
    log: &mut [u8],
    used: usize,
    counts: &mut [u64],
    registers: &mut [u16],
    apid: u8,
    samples: &[i16],
) -> u64
    ensures { call_left log.new (lists_left result counts.new registers.new) ≡ counted_call log.old used counts.old registers.old (set apid samples.now) }
{
    let Some(tally) = load(counts, registers) else {
        return dfb_refusals::above_63(Refusal::WrongLength);
    };
    let done = counting::set(log, used, tally, apid, samples);
    put_counts(done.tally.counts, counts);
    dfb_log::written_63(done.answer)
}

// Appends a SPEC set; answers as above. Refused by 2 for the lists' lengths, then 3, 6, 5, 7, 2.
#[unsafe(no_mangle)]
pub extern "C" fn dfb_counted_report(
    log: &mut [u8],
    used: usize,
    counts: &mut [u64],
    registers: &mut [u16],
    words: &[u8],
) -> u64
    ensures { call_left log.new (lists_left result counts.new registers.new) ≡ counted_call log.old used counts.old registers.old (report words.now) }
{
    let Some(tally) = load(counts, registers) else {
        return dfb_refusals::above_63(Refusal::WrongLength);
    };
    let done = counting::report(log, used, tally, words);
    put_counts(done.tally.counts, counts);
    dfb_log::written_63(done.answer)
}

// Writes counts and registers to the fronts of the lists; answers 0. Refused by 2.
fn put_counted(tally: Tally, counts: &mut [u64], registers: &mut [u16]) -> u64
    ensures { lists_left result counts.new registers.new ≡ count_number (tally_put tally counts.old registers.old) }
{
    if counts.len() < Counts::LENGTH || registers.len() < Registers::COUNT {
        return dfb_refusals::above_63(Refusal::WrongLength);
    }
    put_counts(tally.counts, counts);
    put_registers(tally.registers, registers);
    0
}

// Counts the sets of a log; answers 0 with the counts and registers at the fronts of the lists. Refused by 2 for a log of 2^55 bytes or more,
// then as the walk is, then by 2 for a list under 7; the offset of a refusal 2 is 0.
#[unsafe(no_mangle)]
pub extern "C" fn dfb_count_sets(log: &[u8], counts: &mut [u64], registers: &mut [u16]) -> u64
    ensures { lists_left result counts.new registers.new ≡ count_number (count_answer log.now counts.old registers.old) }
{
    if dfb_refusals::TOO_LONG <= log.len() {
        return dfb_refusals::above_63(Refusal::WrongLength);
    }
    let count = counts::count_sets(log);
    match count.ending {
        Ok(_) => put_counted(count.tally, counts, registers),
        Err(fault) => dfb_refusals::above_63_at(fault.refusal, fault.offset),
    }
}
