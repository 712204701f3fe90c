// Summed spectra in sixteen bits (02, ticket 4; 000, FSUM), one component per call. A run is the 1,024 totals of one mask.
#![tactic(auto)]

ghost use Rattle.std.specs.Prelude.{◌≡◌, ◌+◌, ◌*◌, ◌^◌, ◌<◌, ◌≤◌, ◌++◌, length, take, drop};
ghost use Rattle.lists.specs.Tables.{overwrite};
ghost use Rattle.summed.specs.Component.{square, has_component};
ghost use Rattle.summed.specs.Totals.{counted_before, run_sound, added_run, code_bytes};
ghost use Rattle.summed.specs.Call.{start_state, are_lengths, sound, in_force, totals_with, sum_left, accepted, component_summed};
ghost use Rattle.summed.specs.Private.{AddedTo, Ready};

use refusal::Refusal;

// What is kept between calls, beside the totals: the next component, from 0, and the two masks.
#[derive(Clone, Copy)]
pub struct SumState {
    pub next: u8,
    pub first: u8,
    pub second: u8,
}

// The number of bytes written or the refusal, and the state after the call.
#[derive(Clone, Copy)]
pub struct Summed {
    pub answer: Result<usize, Refusal>,
    pub state: SumState,
}

impl SumState {
    pub const COMPONENTS: u8 = 8;

    pub const BINS: usize = 1024;

    // a run for each mask, the first mask's first
    pub const TOTALS: usize = 2048;

    // a real and an imaginary part for each bin
    pub const PAIRS: usize = 2048;

    // a code of two bytes for each total
    pub const OUTPUT: usize = 4096;

    // Component 0 is next.
    pub fn start() -> SumState
        ensures { result ≡ start_state }
    {
        SumState {
            next: 0,
            first: 0,
            second: 0,
        }
    }
}

// The square of a part of a pair.
fn square(part: i16) -> u32
    ensures { (result ≡ square part) × (result ≤ 2 ^ 30) }
{
    let wide = part as i32;
    (wide * wide) as u32
}

// The power of a pair.
fn power(re: i16, im: i16) -> u32
    ensures { (result ≡ square re + square im) × (result ≤ 2 ^ 31) }
{
    square(re) + square(im)
}

// Whether a mask has component n.
fn has_component(mask: u8, n: u8) -> bool
    requires { n < 8 }
    ensures { result ≡ has_component mask n }
{
    (mask >> n) % 2 == 1
}

// The greatest sound total before component n: 2^31 for each component so far that the mask has.
fn greatest(mask: u8, n: u8) -> u64
    requires { n < 8 }
    ensures { result ≡ counted_before mask n * 2 ^ 31 }
{
    let before = mask % (1 << n);
    u8::count_ones(before) as u64 * 0x8000_0000
}

// Whether every total of a run is at most the greatest sound one.
fn run_sound(mask: u8, n: u8, run: &[u64]) -> bool
    requires n_bound { n < 8 }
    requires run_len { length run.now ≡ 1024 }
    ensures { result ≡ run_sound mask n run.now }
{
    let most = greatest(mask, n);
    // the highest bit is set by a total that is over it: in their difference, or in the total itself
    let mut bits = 0;
    for k in 0..run.len() {
        bits = bits | run[k] | most.wrapping_sub(run[k]);
    }
    bits < 0x8000_0000_0000_0000
}

// Whether the place and the totals are sound.
fn is_sound(state: SumState, totals: &[u64]) -> bool
    requires { length totals.now ≡ 2048 }
    ensures { result ≡ sound state totals.now }
{
    let n = state.next;
    if SumState::COMPONENTS <= n {
        return false;
    }
    run_sound(state.first, n, &totals[..SumState::BINS])
        & run_sound(state.second, n, &totals[SumState::BINS..])
}

// Adds the powers of a component to a run.
fn add_powers(run: &mut [u64], pairs: &[i16])
    requires { AddedTo run.old pairs.now }
    ensures { run.new ≡ added_run run.old pairs.now }
{
    for k in 0..run.len() {
        run[k] += power(pairs[2 * k], pairs[2 * k + 1]) as u64;
    }
}

// Adds the powers of a component to both runs, each power computed once.
fn add_to_both(totals: &mut [u64], pairs: &[i16])
    requires added_to { AddedTo (take 1024 totals.old) pairs.now }
    requires added_to_2 { AddedTo (drop 1024 totals.old) pairs.now }
    ensures { totals.new ≡ added_run (take 1024 totals.old) pairs.now ++ added_run (drop 1024 totals.old) pairs.now }
{
    for k in 0..SumState::BINS {
        let added = power(pairs[2 * k], pairs[2 * k + 1]) as u64;
        totals[k] += added;
        totals[SumState::BINS + k] += added;
    }
}

// Writes the sum code of each total, high byte first.
fn put_codes(totals: &[u64], out: &mut [u8])
    requires { 2 * length totals.now ≤ length out.old }
    ensures { out.new ≡ overwrite (code_bytes totals.now) out.old }
{
    for i in 0..totals.len() {
        let [high, low] = codes::compress_sum(totals[i]).to_be_bytes();
        out[2 * i] = high;
        out[2 * i + 1] = low;
    }
}

// The state at component n, with the masks that hold for it: those handed in with component 0, and the state's own later.
fn in_force(state: SumState, n: u8, first: u8, second: u8) -> SumState
    ensures { result ≡ in_force state n first second }
{
    if n == 0 {
        SumState {
            next: n,
            first,
            second,
        }
    } else {
        state
    }
}

// Adds a component to the run of each mask that has it.
fn add_to_runs(state: SumState, totals: &mut [u64], pairs: &[i16])
    requires { Ready state totals.old pairs.now }
    ensures { totals.new ≡ totals_with state pairs.now totals.old }
{
    let n = state.next;
    let is_second = has_component(state.second, n);
    if has_component(state.first, n) {
        if is_second {
            add_to_both(totals, pairs);
        } else {
            add_powers(&mut totals[..SumState::BINS], pairs);
        }
    } else if is_second {
        add_powers(&mut totals[SumState::BINS..], pairs);
    }
}

// The next component of a state whose masks hold for it.
fn accept(state: SumState, totals: &mut [u64], pairs: &[i16], out: &mut [u8]) -> Summed
    requires ready { Ready state totals.old pairs.now }
    requires in_bounds { 4096 ≤ length out.old }
    ensures { sum_left result totals.new out.new ≡ accepted state pairs.now totals.old out.old }
{
    add_to_runs(state, totals, pairs);
    let n = state.next;
    if n < SumState::COMPONENTS - 1 {
        return Summed {
            answer: Ok(0),
            state: SumState {
                next: n + 1,
                first: state.first,
                second: state.second,
            },
        };
    }
    put_codes(totals, out);
    totals.fill(0);
    Summed {
        answer: Ok(SumState::OUTPUT),
        state: SumState {
            next: 0,
            first: state.first,
            second: state.second,
        },
    }
}

// Whether the lists have their lengths.
fn are_lengths(totals: usize, pairs: usize, out: usize) -> bool
    ensures { result ≡ are_lengths totals pairs out }
{
    (totals == SumState::TOTALS) & (pairs == SumState::PAIRS) & (SumState::OUTPUT <= out)
}

fn refused(state: SumState, refusal: Refusal) -> Summed
    ensures { result ≡ record { answer = Err refusal; state = state } }
{
    Summed {
        answer: Err(refusal),
        state,
    }
}

// Adds one component to the totals of each mask that has it; after the eighth writes the codes of all totals and sets them to 0. Answers the
// number of bytes written. Refused by 2, then 3, then 17.
pub fn sum_component(
    state: SumState,
    totals: &mut [u64],
    component: u8,
    first: u8,
    second: u8,
    pairs: &[i16],
    out: &mut [u8],
) -> Summed
    ensures { sum_left result totals.new out.new ≡ component_summed state totals.old component first second pairs.now out.old }
{
    if !are_lengths(totals.len(), pairs.len(), out.len()) {
        return refused(state, Refusal::WrongLength);
    }
    if !is_sound(state, totals) {
        return refused(state, Refusal::UnsoundState);
    }
    if component != state.next {
        return refused(state, Refusal::ComponentOutOfOrder);
    }
    accept(
        in_force(state, component, first, second),
        totals,
        pairs,
        out,
    )
}
