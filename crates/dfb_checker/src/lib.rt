// The C interface of the check of command lists (include/dfb.h). The function takes slices, a pointer and then a length in C, and answers a
// number. A refusal is 2^63, 256 for each byte of its offset and its number, and changes nothing.
#![tactic(auto)]

ghost use Rattle.std.specs.Prelude.{◌≡◌};
ghost use Rattle.lists.specs.Tables.{tabulate};
ghost use Rattle.registers.specs.Access.{register};
ghost use Rattle.dfb_refusals.specs.Numbers.{above63, filled_number, values_put};
ghost use Rattle.dfb_checker.specs.Answer.{check_answer};

use refusal::Refusal;
use registers::Registers;

// Writes the seven registers to the front of the list; answers 0. Refused by 2.
pub fn put_registers(registers: Registers, list: &mut [u16]) -> u64
    ensures { record { answer = result; buffer = list.new } ≡ filled_number above63 (values_put (record { number = 0; values = tabulate 7 (register registers) }) list.old) }
{
    if list.len() < Registers::COUNT {
        return dfb_refusals::above_63(Refusal::WrongLength);
    }
    list[..Registers::COUNT].copy_from_slice(&registers.value);
    0
}

// Checks a command list; answers 0 with the final registers in registers[0..7]. Refused by 2 for a log of 2^55 bytes or more, then as the
// check refuses, then by 2 for a list under 7; the offset of a refusal 2 is 0.
pub fn dfb_check_commands(log: &[u8], registers: &mut [u16]) -> u64
    ensures { record { answer = result; buffer = registers.new } ≡ filled_number above63 (check_answer log.now registers.old) }
{
    if dfb_refusals::TOO_LONG <= log.len() {
        return dfb_refusals::above_63(Refusal::WrongLength);
    }
    let verdict = checker::check(log);
    match verdict.judgement {
        Ok(()) => put_registers(verdict.registers, registers),
        Err(fault) => dfb_refusals::above_63_at(fault.refusal, fault.offset),
    }
}
