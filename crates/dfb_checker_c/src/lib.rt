// The C function of the check of command lists (include/dfb.h): the library's, exported under its name.
#![tactic(auto)]

ghost use Rattle.std.specs.Prelude.{◌≡◌};
ghost use Rattle.dfb_refusals.specs.Numbers.{above63, FilledNumber, filled_number};
ghost use Rattle.dfb_checker.specs.Answer.{check_answer};

// Checks a command list, as `dfb_checker::dfb_check_commands`.
#[unsafe(no_mangle)]
pub extern "C" fn dfb_check_commands(log: &[u8], registers: &mut [u16]) -> u64
    ensures { record { answer = result; buffer = registers.new } ≡ filled_number above63 (check_answer log.now registers.old) }
{
    dfb_checker::dfb_check_commands(log, registers)
}
