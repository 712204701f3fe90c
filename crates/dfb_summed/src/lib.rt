// The C interface of summed spectra (include/dfb.h). The function takes numbers and slices, a pointer and then a length in C, and answers a
// number. A refusal is 0x10000 and its number, and changes nothing.
#![tactic(auto)]

ghost use Rattle.std.specs.Prelude.{◌≡◌, length};
ghost use Rattle.dfb_summed.specs.Calls.{state_of, state_numbers, sum_call_left, sum_call};

use refusal::Refusal;
use summed::SumState;

// The length of a state: the next component and the two masks.
const STATE: usize = 3;

// The state of three numbers.
fn load(state: &[u8]) -> SumState
    requires { length state.now ≡ 3 }
    ensures { result ≡ state_of state.now }
{
    SumState {
        next: state[0],
        first: state[1],
        second: state[2],
    }
}

// The three numbers of a state.
fn store(state: &mut [u8], from: SumState)
    requires { length state.old ≡ 3 }
    ensures { state.new ≡ state_numbers from }
{
    state[0] = from.next;
    state[1] = from.first;
    state[2] = from.second;
}

// Adds one component; answers the number of bytes written, 0 before the eighth. Refused by 2, then 3, then 17.
#[unsafe(no_mangle)]
pub extern "C" fn dfb_sum_component(
    state: &mut [u8],
    totals: &mut [u64],
    component: u8,
    first_mask: u8,
    second_mask: u8,
    pairs: &[i16],
    out: &mut [u8],
) -> u32
    ensures { sum_call_left result state.new totals.new out.new ≡ sum_call state.old totals.old component first_mask second_mask pairs.now out.old }
{
    if state.len() != STATE {
        return dfb_refusals::above_16(Refusal::WrongLength);
    }
    let done = summed::sum_component(
        load(state),
        totals,
        component,
        first_mask,
        second_mask,
        pairs,
        out,
    );
    store(state, done.state);
    match done.answer {
        Ok(n) => n as u32,
        Err(refusal) => dfb_refusals::above_16(refusal),
    }
}
