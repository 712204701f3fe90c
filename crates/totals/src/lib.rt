// The totals of a period (01, "Periods"): adding a tick's powers. A row is one processor's 112 totals or 1,024 powers.
#![tactic(auto)]

ghost use Rattle.std.specs.Prelude.{◌≡◌, ◌≤◌, length, sum, if◌then◌else◌};
ghost use Rattle.refusal.specs.Outcome.{answer_outcome};
ghost use Rattle.lists.specs.Tables.{grid};
ghost use Rattle.totals.specs.Adding.{added_slot, totals_left, add_outcome};
ghost use Rattle.totals.specs.Private.{added_run, added_row, BandsOfWidth};

use model::State;
use refusal::Refusal;
use registers::Registers;

// The sum of a run of powers.
fn sum(bins: &[u32]) -> u64
    requires { length bins.now ≤ 1024 }
    ensures { result ≡ sum bins.now }
{
    bins.iter().map(|power| *power as u64).sum()
}

// Bands of as many bins.
fn add_run(row: &mut [u64], powers: &[u32], width: usize)
    requires { BandsOfWidth width row.old powers.now }
    ensures { row.new ≡ added_run width row.old powers.now }
{
    for (i, total) in row.iter_mut().enumerate() {
        let bin = i * width;
        *total = total.wrapping_add(sum(&powers[bin..bin + width]));
    }
}

// The bands of an octave. A call for each of the smaller widths gives the compiler sums of a known length.
fn add_octave(row: &mut [u64], powers: &[u32], width: usize)
    requires { BandsOfWidth width row.old powers.now }
    ensures { row.new ≡ added_run width row.old powers.now }
{
    match width {
        2 => add_run(row, powers, 2),
        4 => add_run(row, powers, 4),
        8 => add_run(row, powers, 8),
        16 => add_run(row, powers, 16),
        32 => add_run(row, powers, 32),
        _ => add_run(row, powers, width),
    }
}

// One processor's powers, where S is 4, 8 or 16: the first 2 S bands have one bin, and then S bands at a time have 2, 4, 8, .. bins each.
fn add_row(setting: usize, row: &mut [u64], powers: &[u32])
    requires setting_bound { setting ≤ 2 }
    requires row_len { length row.old ≡ 112 }
    requires powers_len { length powers.now ≡ 1024 }
    ensures { row.new ≡ added_row setting row.old powers.now }
{
    let size = 1usize << (setting + 2);
    let mut band = 2 * size;
    add_run(&mut row[..band], &powers[..band], 1);
    let mut width: usize = 1;
    for octave in 0..7 - setting {
        width = 2 * width;
        let bin = size * width;
        add_octave(&mut row[band..band + size], &powers[bin..bin + bin], width);
        band += size;
    }
}

// The powers of processor n, if it is enabled.
fn add_if_enabled(enabled: bool, setting: usize, row: &mut [u64], powers: &[u32])
    requires setting_bound { setting ≤ 2 }
    requires row_len { length row.old ≡ 112 }
    requires powers_len { length powers.now ≡ 1024 }
    ensures { row.new ≡ (if enabled then added_row setting row.old powers.now else row.old) }
{
    if enabled {
        add_row(setting, row, powers);
    }
}

// The powers of each enabled processor.
fn add_rows(registers: Registers, totals: &mut [u64], powers: &[u32])
    requires totals_len { length totals.old ≡ 784 }
    requires powers_len { length powers.now ≡ 7168 }
    ensures { totals.new ≡ grid 7 112 (added_slot registers totals.old powers.now) }
{
    let setting = settings::bin_setting(registers) as usize;
    for n in 0..Registers::COUNT {
        let slot = n * State::BANDS;
        let bin = n * State::BINS;
        add_if_enabled(
            settings::enabled(registers, n),
            setting,
            &mut totals[slot..slot + State::BANDS],
            &powers[bin..bin + State::BINS],
        );
    }
}

// Adds the powers of one tick, modulo 2^64. Refused by 2 for other numbers of totals and powers than 784 and 7,168.
pub fn add_spectrum(registers: Registers, totals: &mut [u64], powers: &[u32]) -> Result<(), Refusal>
    ensures { totals_left (answer_outcome result) totals.new ≡ add_outcome registers totals.old powers.now }
{
    if totals.len() != State::TOTALS {
        return Err(Refusal::WrongLength);
    }
    if powers.len() != State::POWERS {
        return Err(Refusal::WrongLength);
    }
    add_rows(registers, totals, powers);
    Ok(())
}
