// The board: commands and ticks (01, "Periods", and 02, ticket 13). The state goes in and comes back; the totals, the powers and the output
// are the caller's. Crate `model` has the types, the rules, and a read, which is the state's own.
#![tactic(auto)]

ghost use Rattle.std.specs.Prelude.{◌≡◌, cond, ◌+◌, ◌-◌, ◌<◌, ◌≤◌, eqb};
ghost use Rattle.refusal.specs.Outcome.{answer_outcome};
ghost use Rattle.settings.specs.Settings.{running_of};
ghost use Rattle.model.specs.Board.{period_sound, spectra_held, report_counted, lengths_fit};
ghost use Rattle.model.specs.Board.{commanded_outcome, command_outcome, ticked_outcome, tick_outcome};
ghost use Rattle.board.specs.Private.{soundness, command_left, tick_left, Ticking, running_tick};

use limits::totals_within;
use model::{Commanded, State, TickAnswer, Ticked};
use refusal::Refusal;
use registers::Registers;
use report::write_report;
use totals::add_spectrum;

// The phase is below C when running; otherwise it and the number of reports are 0.
fn is_period_sound(state: State, running: bool) -> bool
    requires { running ≡ running_of state.registers }
    ensures { result ≡ period_sound state }
{
    if running {
        state.phase < settings::period_ticks(state.registers)
    } else {
        state.phase == 0 && state.reports == 0
    }
}

// How many spectra the totals hold.
fn spectra_held(registers: Registers, running: bool, phase: u16) -> u16
    requires { running ≡ running_of registers }
    ensures { result ≡ spectra_held registers phase }
{
    if running && phase < settings::averaged_spectra(registers) {
        phase
    } else {
        0
    }
}

// Whether the state is sound, its totals too. Refused by 2 for another number of totals than 784, then 3.
fn check_sound(state: State, running: bool, totals: &[u64]) -> Result<(), Refusal>
    requires { running ≡ running_of state.registers }
    ensures { answer_outcome result ≡ soundness state totals.now }
{
    if totals.len() != State::TOTALS {
        return Err(Refusal::WrongLength);
    }
    // The totals last: they take the longest.
    let spectra = spectra_held(state.registers, running, state.phase);
    if state.registers.is_sound()
        && is_period_sound(state, running)
        && totals_within(state.registers, totals, spectra)?
    {
        Ok(())
    } else {
        Err(Refusal::UnsoundState)
    }
}

// A command's value stored, and the state with it at phase 0 and without reports.
fn command_taken(
    state: State,
    totals: &mut [u64],
    id: u8,
    information: u16,
) -> Result<(u16, State), Refusal>
    ensures { command_left state result totals.new ≡ command_outcome state totals.old id information }
{
    check_sound(state, settings::running(state.registers), totals)?;
    let write = state.registers.write(id, information);
    let stored = write.answer?;
    totals.fill(0);
    let next = State {
        registers: write.registers,
        phase: 0,
        reports: 0,
    };
    Ok((stored, next))
}

// A command: an ID and 16 bits of information. Refused by 2, 3, then 1.
pub fn command(state: State, totals: &mut [u64], id: u8, information: u16) -> Commanded
    ensures { commanded_outcome result totals.new ≡ command_outcome state totals.old id information }
{
    match command_taken(state, totals, id, information) {
        Ok((stored, next)) => Commanded {
            answer: Ok(stored),
            state: next,
        },
        Err(refusal) => Commanded {
            answer: Err(refusal),
            state,
        },
    }
}

// The phase after p: 0 after C - 1.
fn next_phase(phase: u16, period: u16) -> u16
    requires phase_lt_period { phase < period }
    requires period_bound { period ≤ 1024 }
    ensures { result ≡ cond (eqb phase (period - 1)) 0 (phase + 1) }
{
    if phase == period - 1 { 0 } else { phase + 1 }
}

// The state with one report more counted; the number stays at 65,535 once there.
fn report_counted(state: State) -> State
    ensures { result ≡ report_counted state }
{
    State {
        reports: state.reports.saturating_add(1),
        ..state
    }
}

// A tick of a running board. No mean is over 2^32 - 1 (model's MeansWithin), so a report's words are those of the totals.
fn running_tick(
    state: State,
    totals: &mut [u64],
    powers: &[u32],
    out: &mut [u8],
) -> Result<(TickAnswer, State), Refusal>
    requires { Ticking state totals.old powers.now out.old }
    ensures { tick_left state result totals.new out.new ≡ running_tick state totals.old powers.now out.old }
{
    let registers = state.registers;
    let phase = state.phase;
    let period = settings::period_ticks(registers);
    let spectra = settings::averaged_spectra(registers);
    let last = spectra - 1;
    let next = State {
        phase: next_phase(phase, period),
        ..state
    };
    if last < phase {
        return Ok((TickAnswer::Waiting, next));
    }
    add_spectrum(registers, totals, powers)?;
    if phase == last {
        let words = write_report(registers, totals, out)?;
        totals.fill(0);
        return Ok((TickAnswer::Reported(words), report_counted(next)));
    }
    Ok((TickAnswer::Collected, next))
}

// The lengths of powers, totals and output that refusal 2 asks.
fn are_lengths(powers: usize, totals: usize, out: usize) -> bool
    ensures { result ≡ lengths_fit powers totals out }
{
    powers == State::POWERS && totals == State::TOTALS && State::OUTPUT <= out
}

// A tick's answer, and the state after it.
fn tick_taken(
    state: State,
    totals: &mut [u64],
    powers: &[u32],
    out: &mut [u8],
) -> Result<(TickAnswer, State), Refusal>
    ensures { tick_left state result totals.new out.new ≡ tick_outcome state totals.old powers.now out.old }
{
    if !are_lengths(powers.len(), totals.len(), out.len()) {
        return Err(Refusal::WrongLength);
    }
    let is_running = settings::running(state.registers);
    check_sound(state, is_running, totals)?;
    if !is_running {
        return Ok((TickAnswer::Idle, state));
    }
    running_tick(state, totals, powers, out)
}

// A tick with 7 rows of 1,024 powers. Refused by 2, then 3.
pub fn tick(state: State, totals: &mut [u64], powers: &[u32], out: &mut [u8]) -> Ticked
    ensures { ticked_outcome result totals.new out.new ≡ tick_outcome state totals.old powers.now out.old }
{
    match tick_taken(state, totals, powers, out) {
        Ok((answer, next)) => Ticked {
            answer: Ok(answer),
            state: next,
        },
        Err(refusal) => Ticked {
            answer: Err(refusal),
            state,
        },
    }
}
