// The rules of the board as definitions, its reference model, demand 3 (01, "Periods" and "Demand 3 and its plain book"), and the numbers of
// reports (02, ticket 13).
// The only code is the state's reset and read: crate `board` has the functions that meet the other rules.
#![tactic(auto)]

ghost use Rattle.std.specs.Prelude.{◌≡◌};
ghost use Rattle.refusal.specs.Outcome.{answer_outcome};
ghost use Rattle.registers.specs.Access.{register_read};
ghost use Rattle.model.specs.Board.{reset_state};

use refusal::Refusal;
use registers::Registers;

// The registers, the phase in ticks since the period began, and the reports since the last accepted command, counted up to 65,535.
#[derive(Clone, Copy)]
pub struct State {
    pub registers: Registers,
    pub phase: u16,
    pub reports: u16,
}

// The answer of a command, which is the value stored, and the state after it.
#[derive(Clone, Copy)]
pub struct Commanded {
    pub answer: Result<u16, Refusal>,
    pub state: State,
}

// The answer of a tick in 01's words; a report has its word count. The report's number is `reports` of the state after it.
#[derive(Clone, Copy)]
pub enum TickAnswer {
    Idle,
    Collected,
    Reported(u16),
    Waiting,
}

// The answer of a tick, and the state after it.
#[derive(Clone, Copy)]
pub struct Ticked {
    pub answer: Result<TickAnswer, Refusal>,
    pub state: State,
}

impl State {
    // The bins of a spectrum.
    pub const BINS: usize = bands::BINS as usize;

    // The totals of a processor.
    pub const BANDS: usize = 112;

    // The number of totals that a caller passes: 112 for each of 7 processors.
    pub const TOTALS: usize = 784;

    // The number of powers of a tick: 1,024 for each of 7 processors.
    pub const POWERS: usize = 7168;

    // The bytes of the longest report.
    pub const OUTPUT: usize = 1176;

    // The state after reset.
    pub fn reset() -> Self
        ensures { result ≡ reset_state }
    {
        State {
            registers: Registers::reset(),
            phase: 0,
            reports: 0,
        }
    }

    // The stored value of the register of the ID. Refused by 3, for the registers only, then 1.
    pub fn read(self, id: u8) -> Result<u16, Refusal>
        ensures { answer_outcome result ≡ register_read self.registers id }
    {
        let registers = self.registers;
        if !registers.is_sound() {
            return Err(Refusal::UnsoundState);
        }
        if !registers::is_id(id) {
            return Err(Refusal::UnknownCommand);
        }
        let n = (id - Registers::FIRST_ID) as usize;
        Ok(registers.value[n])
    }
}
