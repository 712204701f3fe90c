// Whether totals are within the most that so many spectra give (01, "Periods"). A row is one processor's 112 totals.
#![tactic(auto)]

ghost use Rattle.std.specs.Prelude.{◌≡◌, ◌≤◌, length};
ghost use Rattle.refusal.specs.Outcome.{answer_outcome};
ghost use Rattle.settings.specs.Settings.{setting_of, bands_of};
ghost use Rattle.model.specs.Board.{totals_within};
ghost use Rattle.limits.specs.Within.{within};
ghost use Rattle.limits.specs.Private.{all_zero, all_within, row_within, Limits};

use model::State;
use refusal::Refusal;
use registers::Registers;

// Every total is 0. With no early end the compiler joins several at a time.
fn all_zero(totals: &[u64]) -> bool
    ensures { result ≡ all_zero totals.now }
{
    totals.iter().fold(0, |bits, total| bits | *total) == 0
}

// Every total is at most its limit. With no early end the compiler compares several at a time.
fn all_within(totals: &[u64], limits: &[u64]) -> bool
    requires { length limits.now ≡ length totals.now }
    ensures { result ≡ all_within totals.now limits.now }
{
    totals
        .iter()
        .zip(limits)
        .fold(true, |within, (total, limit)| within & (*total <= *limit))
}

// The most that so many spectra give each band of a processor.
#[derive(Drop)]
struct BandLimits {
    bands: usize,
    limits: [u64; State::BANDS],
    ghost few: { bands ≤ 112 },
}

impl BandLimits {
    // From the limit of one bin, where S is 4, 8 or 16: the first 2 S bands have one bin, and each other band twice the bins of the one S
    // before.
    fn of(registers: Registers, spectra: u16) -> Self
        ensures bands_value { result.bands ≡ bands_of registers }
        ensures limits_value { Limits (setting_of registers) spectra result.limits }
    {
        let bands = settings::bands(registers);
        let size = 1usize << (settings::bin_setting(registers) + 2);
        let mut limits = [spectra as u64 * 0xFFFF_FFFF; State::BANDS];
        for b in 2 * size..bands {
            limits[b] = 2 * limits[b - size];
        }
        BandLimits { bands, limits }
    }

    // The totals of one processor.
    fn row_within(&self, enabled: bool, row: &[u64; State::BANDS]) -> bool
        ensures { result ≡ row_within enabled self.now.bands self.now.limits row.now }
    {
        if enabled {
            all_within(&row[..self.bands], &self.limits[..self.bands])
                && all_zero(&row[self.bands..])
        } else {
            all_zero(row)
        }
    }
}

// The totals are at most those of as many spectra.
fn are_within(registers: Registers, totals: &[u64], spectra: u16) -> bool
    requires { length totals.now ≡ 784 }
    ensures { result ≡ totals_within registers spectra totals.now }
{
    if spectra == 0 {
        return all_zero(totals);
    }
    let limits = BandLimits::of(registers, spectra);
    let (rows, _) = totals.as_chunks::<{ State::BANDS }>();
    rows.iter().enumerate().all(|(n, row)| limits.row_within(settings::enabled(registers, n), row))
}

// Whether the totals are at most those of as many spectra. Refused by 2 for another number of totals than 784.
pub fn totals_within(registers: Registers, totals: &[u64], spectra: u16) -> Result<bool, Refusal>
    ensures { answer_outcome result ≡ within registers spectra totals.now }
{
    if totals.len() != State::TOTALS {
        return Err(Refusal::WrongLength);
    }
    Ok(are_within(registers, totals, spectra))
}
