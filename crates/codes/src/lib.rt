// The band code (u32 to u8) and the sum code (u64 to u16): 01, "The two codes", with 02's ticket 5.
#![tactic(auto)]

ghost use Rattle.std.specs.Prelude.{◌≡◌};
ghost use Rattle.refusal.specs.Outcome.{answer_outcome};
ghost use Rattle.codes.specs.Code.{exponent, band_code, sum_code};
ghost use Rattle.codes.specs.Expanded.{band_expanded, sum_expanded};

use refusal::Refusal;

// The least exponent at which a value fits a mantissa of so many bits: its binary digits beyond that width.
pub fn exponent(v: u64, width: u32) -> u32
    ensures { result ≡ exponent width v }
{
    let digits = 64 - u64::leading_zeros(v);
    if digits <= width { 0 } else { digits - width }
}

// The band code of a value: of the two neighbouring legal values the nearer, and the upper one halfway.
pub fn compress_band(v: u32) -> u8
    ensures { result ≡ band_code v }
{
    let e = exponent(v as u64, 3);
    // the mantissa in half steps, and the nearest whole one, where 8 is 4 at the next exponent
    let halves = (v as u64 * 2) >> e;
    let m = (halves + 1) / 2;
    ((e as u64) * 8 + m + m / 8 * 4) as u8
}

// The sum code of a value.
pub fn compress_sum(v: u64) -> u16
    ensures { result ≡ sum_code v }
{
    // exponent(v, 10) without a choice: with its low ten bits set a value has ten binary digits or more
    let e = 54 - u64::leading_zeros(v | 1023);
    let m = v >> e;
    ((e as u64) * 1024 + m) as u16
}

// The value of a legal band code; refusal 7 for any other code.
pub fn expand_band(code: u8) -> Result<u64, Refusal>
    ensures { answer_outcome result ≡ band_expanded code }
{
    let e = code / 8;
    let m = code % 8;
    if e == 0 {
        return Ok(m as u64);
    }
    if 0xF4 < code {
        return Err(Refusal::IllegalBandCode);
    }
    if m < 4 {
        return Err(Refusal::IllegalBandCode);
    }
    Ok((m as u64) << e)
}

// The value of a sum code, reduced or not; refusal 8 where it is 2^64 or more.
pub fn expand_sum(code: u16) -> Result<u64, Refusal>
    ensures { answer_outcome result ≡ sum_expanded code }
{
    let e = code / 1024;
    let m = (code % 1024) as u64;
    if m <= u64::MAX >> e {
        Ok(m << e)
    } else {
        Err(Refusal::SumCodeOverflow)
    }
}
