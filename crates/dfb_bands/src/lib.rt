// The C interface of the bands and the two codes (include/dfb.h). Each function takes numbers and slices, a pointer and then a length in
// C, and answers a number. A refusal is a base plus its number, which no other answer of the function equals, and changes nothing.
#![tactic(auto)]

ghost use Rattle.std.specs.Prelude.{◌≡◌};
ghost use Rattle.codes.specs.Code.{band_code, sum_code};
ghost use Rattle.codes.specs.Expanded.{band_expanded};
ghost use Rattle.bands.specs.Answer.{band_found};
ghost use Rattle.dfb_refusals.specs.Numbers.{above8, above16, above63, outcome_number, FilledNumber, filled_number, values_put};
ghost use Rattle.dfb_bands.specs.Values.{sum_written, band_written, cadence_written};

use bands::Cadence;
use refusal::Refusal;

// The band of an FFT bin. Refused by 12.
#[unsafe(no_mangle)]
pub extern "C" fn dfb_band_of(setting: u8, bin: u16) -> u16
    ensures { result ≡ outcome_number above8 (band_found setting bin) }
{
    bands::band_of(setting, bin).map_or_else(
        |refusal| 0x100 + refusal::number(refusal) as u16,
        u16::from,
    )
}

// Writes values to the front of a list and gives the answer. Refused by 2.
fn put_values<T: Copy>(list: &mut [T], values: &[T], answer: u32) -> u32
    ensures { record { answer = result; buffer = list.new } ≡ filled_number above16 (values_put (record { number = answer; values = values.now }) list.old) }
{
    if list.len() < values.len() {
        return dfb_refusals::above_16(Refusal::WrongLength);
    }
    list[..values.len()].copy_from_slice(values);
    answer
}

// Writes low edge, centre and width of a band in hertz and answers 0. Refused by 12, then 2.
#[unsafe(no_mangle)]
pub extern "C" fn dfb_describe_band(setting: u8, band: u8, three: &mut [f32]) -> u32
    ensures { record { answer = result; buffer = three.new } ≡ filled_number above16 (band_written setting band three.old) }
{
    match bands::describe_band(setting, band) {
        Ok(description) => put_values(
            three,
            &[description.low, description.centre, description.width],
            0,
        ),
        Err(refusal) => dfb_refusals::above_16(refusal),
    }
}

// Writes a rate per second and answers 0, or a period in seconds and answers 1. Refused by 12, then 2.
#[unsafe(no_mangle)]
pub extern "C" fn dfb_cadence_of(choice: u8, value: &mut [f32]) -> u32
    ensures { record { answer = result; buffer = value.new } ≡ filled_number above16 (cadence_written choice value.old) }
{
    match bands::cadence_of(choice) {
        Ok(Cadence::Rate(rate)) => put_values(value, &[rate], 0),
        Ok(Cadence::Period(period)) => put_values(value, &[period], 1),
        Err(refusal) => dfb_refusals::above_16(refusal),
    }
}

// The band code of a value.
#[unsafe(no_mangle)]
pub extern "C" fn dfb_compress_band(value: u32) -> u8
    ensures { result ≡ band_code value }
{
    codes::compress_band(value)
}

// The value of a band code. Refused by 7.
#[unsafe(no_mangle)]
pub extern "C" fn dfb_expand_band(code: u8) -> u64
    ensures { result ≡ outcome_number above63 (band_expanded code) }
{
    codes::expand_band(code).unwrap_or_else(dfb_refusals::above_63)
}

// The sum code of a value.
#[unsafe(no_mangle)]
pub extern "C" fn dfb_compress_sum(value: u64) -> u16
    ensures { result ≡ sum_code value }
{
    codes::compress_sum(value)
}

// Writes the value of a sum code and answers 0. Refused by 8, then 2.
#[unsafe(no_mangle)]
pub extern "C" fn dfb_expand_sum(code: u16, value: &mut [u64]) -> u32
    ensures { record { answer = result; buffer = value.new } ≡ filled_number above16 (sum_written code value.old) }
{
    match codes::expand_sum(code) {
        Ok(v) => put_values(value, &[v], 0),
        Err(refusal) => dfb_refusals::above_16(refusal),
    }
}
