// Totals of 36 or 64 bands from a list of 112 (02, ticket 8).
#![tactic(auto)]

ghost use Rattle.std.specs.Prelude.{◌≡◌, true, ◌≤◌, length, get_or};
ghost use Rattle.lists.specs.Sums.{sum_to};
ghost use Rattle.lists.specs.Tables.{overwrite};
ghost use Rattle.refusal.specs.Outcome.{filled};
ghost use Rattle.registers.specs.Store.{band_count};
ghost use Rattle.coarse.specs.Coarse.{totals_taken, coarse_totals, coarse_outcome};
ghost use Rattle.coarse.specs.Private.{run_sums, RunsOfLength};

use refusal::Refusal;

// The number of fine totals.
pub const FINE_TOTALS: usize = 112;

// The greatest fine total that is taken: 2^49.
pub const MOST_TOTAL: u64 = 0x2_0000_0000_0000;

// The greatest bin setting that is a target: 64 bands.
const LAST_TARGET: u8 = 1;

// No total is over the greatest.
fn are_taken(fine: &[u64]) -> bool
    ensures { result ≡ totals_taken fine.now }
{
    fine.iter().all(|total| *total <= MOST_TOTAL)
}

// The sum of the totals of a run.
fn run_sum(run: &[u64]) -> u64
    requires run_len_bound { length run.now ≤ 4 }
    requires run_value { totals_taken run.now ≡ true }
    ensures { result ≡ sum_to (length run.now) (λ j. get_or run.now j 0) }
{
    run.iter().sum()
}

// Writes the sums of runs of one length.
fn put_runs(fine: &[u64], out: &mut [u64], len: usize)
    requires { RunsOfLength len fine.now out.old }
    ensures { out.new ≡ run_sums len (length out.old) fine.now }
{
    for (i, total) in out.iter_mut().enumerate() {
        let k = i * len;
        *total = run_sum(&fine[k..k + len]);
    }
}

// Writes the totals of 36 bands: 8 of one fine band each, 4 of two and 24 of four. A call for each length gives the compiler sums of a known
// length.
fn put_36(fine: &[u64], out: &mut [u64])
    requires fine_len { (length fine.now ≡ 112) × (totals_taken fine.now ≡ true) }
    requires in_bounds { 36 ≤ length out.old }
    ensures { out.new ≡ overwrite (coarse_totals 0 fine.now) out.old }
{
    put_runs(&fine[0..8], &mut out[0..8], 1);
    put_runs(&fine[8..16], &mut out[8..12], 2);
    put_runs(&fine[16..112], &mut out[12..36], 4);
}

// Writes the totals of 64 bands: 16 of one fine band each and 48 of two.
fn put_64(fine: &[u64], out: &mut [u64])
    requires fine_len { (length fine.now ≡ 112) × (totals_taken fine.now ≡ true) }
    requires in_bounds { 64 ≤ length out.old }
    ensures { out.new ≡ overwrite (coarse_totals 1 fine.now) out.old }
{
    put_runs(&fine[0..16], &mut out[0..16], 1);
    put_runs(&fine[16..112], &mut out[16..64], 2);
}

// Writes the totals of the target's bands.
fn put_totals(setting: u8, fine: &[u64], out: &mut [u64])
    requires setting_bound { setting ≤ 1 }
    requires fine_len { (length fine.now ≡ 112) × (totals_taken fine.now ≡ true) }
    requires setting_in_bounds { band_count setting ≤ length out.old }
    ensures { out.new ≡ overwrite (coarse_totals setting fine.now) out.old }
{
    if setting == 0 {
        put_36(fine, out);
    } else {
        put_64(fine, out);
    }
}

// Converts 112 totals to those of 36 bands (setting 0) or 64 (setting 1); answers how many were written. Refused by 12, then 2, then 24.
pub fn coarse_totals(setting: u8, fine: &[u64], out: &mut [u64]) -> Result<usize, Refusal>
    ensures { filled result out.new ≡ coarse_outcome setting fine.now out.old }
{
    if LAST_TARGET < setting {
        return Err(Refusal::OutOfRange);
    }
    let i = setting as usize;
    let bands = registers::BAND_COUNTS[i] as usize;
    if fine.len() != FINE_TOTALS {
        return Err(Refusal::WrongLength);
    }
    if out.len() < bands {
        return Err(Refusal::WrongLength);
    }
    if !are_taken(fine) {
        return Err(Refusal::TotalTooLarge);
    }
    put_totals(setting, fine, out);
    Ok(bands)
}
