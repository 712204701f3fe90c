// The C interface of the board (include/dfb.h): command, read and tick. Each function takes numbers and slices, a pointer and then a
// length in C, and answers a number. A refusal is a base plus its number, which no other answer of the function equals, and changes nothing.
#![tactic(auto)]

ghost use Rattle.std.specs.Prelude.{◌≡◌, length};
ghost use Rattle.refusal.specs.Outcome.{answer_outcome};
ghost use Rattle.model.specs.Board.{tick_reply};
ghost use Rattle.dfb_refusals.specs.Numbers.{above16, outcome_number};
ghost use Rattle.dfb_board.specs.State.{state_of, state_words};
ghost use Rattle.dfb_board.specs.Private.{Fits};
ghost use Rattle.dfb_board.specs.Calls.{reply_number, CommandCall, command_call, read_call, tick_call_left, tick_call};

use model::{State, TickAnswer};
use refusal::Refusal;
use registers::Registers;

// The length of a state: seven registers, the phase and the number of reports.
const STATE: usize = 9;

// The answer of a command or a read.
fn answer_16(answer: Result<u16, Refusal>) -> u32
    ensures { result ≡ outcome_number above16 (answer_outcome answer) }
{
    answer.map_or_else(dfb_refusals::above_16, u32::from)
}

// The answer of a tick, with the number of reports of the state after it.
fn tick_number(answer: Result<TickAnswer, Refusal>, reports: u16) -> u32
    requires { Fits (tick_reply answer) reports }
    ensures { result ≡ reply_number (tick_reply answer) reports }
{
    match answer {
        Ok(TickAnswer::Idle) => 0,
        Ok(TickAnswer::Collected) => 1,
        Ok(TickAnswer::Waiting) => 2,
        Ok(TickAnswer::Reported(words)) => 0x80000000 + words as u32 * 65536 + reports as u32,
        Err(refusal) => dfb_refusals::above_16(refusal),
    }
}

// The state of nine numbers.
fn load(state: &[u16]) -> State
    requires { length state.now ≡ 9 }
    ensures { result ≡ state_of state.now }
{
    let mut value = [0u16; Registers::COUNT];
    value.copy_from_slice(&state[..Registers::COUNT]);
    State {
        registers: Registers { value },
        phase: state[7],
        reports: state[8],
    }
}

// The nine numbers of a state.
fn store(state: &mut [u16], from: State)
    requires { length state.old ≡ 9 }
    ensures { state.new ≡ state_words from }
{
    state[..Registers::COUNT].copy_from_slice(&from.registers.value);
    state[7] = from.phase;
    state[8] = from.reports;
}

// A command; answers the value stored. Refused by 2, then 3, then 1.
#[unsafe(no_mangle)]
pub extern "C" fn dfb_command(
    state: &mut [u16],
    totals: &mut [u64],
    id: u8,
    information: u16,
) -> u32
    ensures { record { answer = result; state = state.new; totals = totals.new } ≡ command_call state.old totals.old id information }
{
    if state.len() != STATE {
        return dfb_refusals::above_16(Refusal::WrongLength);
    }
    let done = board::command(load(state), totals, id, information);
    store(state, done.state);
    answer_16(done.answer)
}

// The value of the register of an ID. Refused by 2 for the state's length, then 3, then 1.
#[unsafe(no_mangle)]
pub extern "C" fn dfb_read(state: &[u16], id: u8) -> u32
    ensures { result ≡ read_call state.now id }
{
    if state.len() != STATE {
        return dfb_refusals::above_16(Refusal::WrongLength);
    }
    answer_16(load(state).read(id))
}

// A tick with 7 rows of 1,024 powers; a report writes 3 bytes for each word from the start of out. Refused by 2, then 3.
#[unsafe(no_mangle)]
pub extern "C" fn dfb_tick(
    state: &mut [u16],
    totals: &mut [u64],
    powers: &[u32],
    out: &mut [u8],
) -> u32
    ensures { tick_call_left result state.new totals.new out.new ≡ tick_call state.old totals.old powers.now out.old }
{
    if state.len() != STATE {
        return dfb_refusals::above_16(Refusal::WrongLength);
    }
    let done = board::tick(load(state), totals, powers, out);
    store(state, done.state);
    tick_number(done.answer, done.state.reports)
}
