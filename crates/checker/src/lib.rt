// The check of planners' command lists (02, ticket 6). The workshop profile: nothing but commands and second marks; seconds never falling;
// every write storing exactly what was sent; and after each second mark, and at the end, no processor enabled or N at most C.
#![tactic(auto)]

ghost use Rattle.std.specs.Prelude.{◌≡◌, true};
ghost use Rattle.refusal.specs.Outcome.{given};
ghost use Rattle.refusal.specs.Number.{number_of};
ghost use Rattle.registers.specs.Access.{is_id};
ghost use Rattle.board_log.specs.Format.{checked};
ghost use Rattle.board_log.specs.Cursor.{read_outcome};
ghost use Rattle.checker.specs.Check.{judgement_outcome, verdict_outcome, within_period, at_start, refusal_of_read, commands_checked};
ghost use Rattle.checker.specs.Private.{kept_left, kept, judgement_without_record};

use board_log::{Command, Entry, Record};
use refusal::{Fault, Refusal};
use registers::Registers;

// The judgement, accepted or the first record at fault, whose offset is the list's length where its end is at fault; and the registers that
// the records before the end or before the one at fault leave.
#[derive(Clone, Copy)]
pub struct Verdict {
    pub judgement: Result<(), Fault>,
    pub registers: Registers,
}

// What the records before a place leave: the second of the last mark, 0 before the first, and the registers in force.
#[derive(Clone, Copy)]
struct Standing {
    second: u32,
    registers: Registers,
}

// Whether no processor is enabled or N is at most C.
#[tactic(auto, unfolding(crate::specs::Check::within_period))]
fn is_within_period(registers: Registers) -> bool
    ensures { result ≡ within_period registers }
{
    settings::averaged_spectra(registers) <= settings::period_ticks(registers)
        || settings::enabled_count(registers) == 0
}

// The refusal for a read that was refused: a word of an APID that is not kept is a word all the same, and 18 comes before 4.
fn refusal_of_read(refusal: Refusal) -> Refusal
    ensures { number_of result ≡ refusal_of_read (number_of refusal) }
{
    match refusal {
        Refusal::UnknownApid => Refusal::KindNotInProfile,
        _ => refusal,
    }
}

impl Standing {
    // Before the first record: any second may come, and registers are at reset.
    fn start() -> Self
        ensures { result ≡ at_start }
    {
        Standing {
            second: 0,
            registers: Registers::reset(),
        }
    }

    // Takes a command: refused by 20 where its register would not store exactly the value sent.
    fn store(&mut self, command: Command) -> Result<(), Refusal>
        requires { is_id command.id ≡ true }
        ensures { kept_left result self.new ≡ kept self.old (Record.Command command) }
    {
        let n = (command.id - Registers::FIRST_ID) as usize;
        if registers::stored_at(n, command.information) != command.information {
            return Err(Refusal::ValueAltered);
        }
        self.registers.value[n] = command.information;
        Ok(())
    }

    // Takes a second mark: refused by 19 where it is smaller than the one before it, then by 21.
    fn mark(&mut self, second: u32) -> Result<(), Refusal>
        ensures { kept_left result self.new ≡ kept self.old (Record.SecondMark second) }
    {
        if second < self.second {
            return Err(Refusal::SecondFalls);
        }
        if !is_within_period(self.registers) {
            return Err(Refusal::AveragesOverPeriod);
        }
        self.second = second;
        Ok(())
    }

    // Takes a record: refused by 18 where it is neither.
    fn keep(&mut self, entry: Record) -> Result<(), Refusal>
        requires { checked entry ≡ given entry }
        ensures { kept_left result self.new ≡ kept self.old entry }
    {
        match entry {
            Record::Command(command) => self.store(command),
            Record::SecondMark(second) => self.mark(second),
            Record::Word(_) | Record::Tick => Err(Refusal::KindNotInProfile),
        }
    }
}

// The judgement for a read at a place that gave no record: at the list's end by the registers, or its refusal.
fn judge_without_record(
    read: Result<Option<Entry>, Refusal>,
    registers: Registers,
    at: usize,
) -> Result<(), Fault>
    ensures { judgement_outcome result ≡ judgement_without_record (read_outcome read) registers at }
{
    let refusal = match read {
        Err(refusal) => refusal_of_read(refusal),
        Ok(_) if is_within_period(registers) => return Ok(()),
        Ok(_) => Refusal::AveragesOverPeriod,
    };
    Err(Fault {
        refusal,
        offset: at,
    })
}

// Checks a command list from reset. Refused per record by 9, 10, then 18, 1, 20 for a command, 19, 21 for a second mark; at the end by 21.
pub fn check(log: &[u8]) -> Verdict
    ensures { verdict_outcome result ≡ commands_checked log.now }
{
    let mut at: usize = 0;
    let mut standing = Standing::start();
    loop {
        let read = board_log::read_at(log, at);
        let Ok(Some(entry)) = read else {
            return Verdict {
                judgement: judge_without_record(read, standing.registers, at),
                registers: standing.registers,
            };
        };
        if let Err(refusal) = standing.keep(entry.record) {
            return Verdict {
                judgement: Err(Fault {
                    refusal,
                    offset: at,
                }),
                registers: standing.registers,
            };
        }
        at = entry.next;
    }
}
