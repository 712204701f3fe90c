// The C interface of the interval of Burst 1 (02, ticket 11).
#![tactic(auto)]

ghost use Rattle.std.specs.Prelude.{◌≡◌};
ghost use Rattle.dfb_interval.specs.Interval.{interval_call};

// Chooses the interval; answers its first block in bits 15:0 and its last in bits 31:16. Refused by 2, then 29, then 26.
#[unsafe(no_mangle)]
pub extern "C" fn dfb_choose_interval(index: &[u32], bonus: u32, limit: u32) -> u64
    ensures { result ≡ interval_call index.now bonus limit }
{
    match interval::choose_interval(index, bonus, limit) {
        Ok(chosen) => chosen.first as u64 + 0x10000 * chosen.last as u64,
        Err(refusal) => dfb_refusals::above_63(refusal),
    }
}
