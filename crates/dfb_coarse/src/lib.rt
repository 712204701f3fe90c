// The C interface of coarse totals (02, ticket 8).
#![tactic(auto)]

ghost use Rattle.std.specs.Prelude.{◌≡◌};
ghost use Rattle.dfb_refusals.specs.Numbers.{above16, FilledNumber, filled_number};
ghost use Rattle.coarse.specs.Coarse.{coarse_outcome};

// Converts 112 totals to those of 36 bands (setting 0) or 64 (setting 1); answers how many were written. Refused by 12, then 2, then 24.
#[unsafe(no_mangle)]
pub extern "C" fn dfb_coarse_totals(setting: u8, fine: &[u64], out: &mut [u64]) -> u32
    ensures { record { answer = result; buffer = out.new } ≡ filled_number above16 (coarse_outcome setting fine.now out.old) }
{
    match coarse::coarse_totals(setting, fine, out) {
        Ok(n) => n as u32,
        Err(refusal) => dfb_refusals::above_16(refusal),
    }
}
