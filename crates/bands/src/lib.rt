// FFT bins and bands (01, "Bands"): the band of a bin, the description of a band in hertz, and the cadence of reports.
#![tactic(auto)]

ghost use Rattle.std.specs.Prelude.{◌≡◌, ◌-◌};
ghost use Rattle.refusal.specs.Outcome.{answer_outcome};
ghost use Rattle.bands.specs.Private.{band_bins};
ghost use Rattle.bands.specs.Answer.{band_found, band_described, cadence_of};
ghost use Rattle.bands.specs.Exact.{ExactDescription, ExactCadence};

use refusal::Refusal;
use registers::Registers;

// The number of FFT bins.
pub const BINS: u16 = 1024;

// The bins of a band: so many from start on.
#[derive(Clone, Copy)]
struct BinRange {
    start: u16,
    width: u16,
}

// A band in hertz.
#[derive(Clone, Copy)]
pub struct Description {
    pub low: f32,
    pub centre: f32,
    pub width: f32,
}

// How often reports come: a rate per second, or a period in seconds.
#[derive(Clone, Copy)]
pub enum Cadence {
    Rate(f32),
    Period(f32),
}

// The band of an FFT bin at a bin setting; refusal 12 for a setting over 2 or a bin over 1023.
pub fn band_of(setting: u8, bin: u16) -> Result<u8, Refusal>
    ensures { answer_outcome result ≡ band_found setting bin }
{
    if Registers::BINS_LIMIT < setting as u16 {
        return Err(Refusal::OutOfRange);
    }
    if BINS <= bin {
        return Err(Refusal::OutOfRange);
    }
    let s = setting as u32 + 2;
    // the octaves from that of S up to the bin's, 0 for a bin below S: a band there has 2^e bins, and the bin's is S * e + bin / 2^e
    let e = codes::exponent(bin as u64, s + 1);
    let band = ((e << s) + (bin as u32 >> e)) as u8;
    Ok(band)
}

// The exponent of the width of a band, from the number of its octave.
fn width_exponent(octave: u8) -> u8
    ensures { result ≡ octave - 1 }
{
    octave.saturating_sub(1)
}

// The bins of a band; refusal 12 for a setting over 2 or a band past the count.
fn bins_of_band(setting: u8, band: u8) -> Result<BinRange, Refusal>
    ensures { answer_outcome result ≡ band_bins setting band }
{
    if Registers::BINS_LIMIT < setting as u16 {
        return Err(Refusal::OutOfRange);
    }
    let i = setting as usize;
    if registers::BAND_COUNTS[i] <= band {
        return Err(Refusal::OutOfRange);
    }
    let s = setting + 2;
    let e = width_exponent(band >> s);
    let m = band - (e << s);
    Ok(BinRange {
        start: (m as u16) << e,
        width: 1u16 << e,
    })
}

// The low edge, centre and width of a band in hertz, a bin spanning 8 Hz; refusal 12 for a setting over 2 or a band past the count.
pub fn describe_band(setting: u8, band: u8) -> Result<Description, Refusal>
    ensures { (answer_outcome result ≡ band_described setting band) × ExactDescription setting band result }
{
    let bins = bins_of_band(setting, band)?;
    let low = 8 * bins.start;
    let width = 8 * bins.width;
    let centre = low + width / 2;
    Ok(Description {
        low: low as f32,
        centre: centre as f32,
        width: width as f32,
    })
}

// How often reports come at an NCAD choice: 8 / C a second or every C / 8 seconds, C being 2 to that power; refusal 12 for a choice over 10.
pub fn cadence_of(choice: u8) -> Result<Cadence, Refusal>
    ensures { (answer_outcome result ≡ cadence_of choice) × ExactCadence choice result }
{
    if Registers::NCAD_LIMIT < choice as u16 {
        return Err(Refusal::OutOfRange);
    }
    let ticks = 1u16 << choice;
    if ticks <= 8 {
        Ok(Cadence::Rate(8.0 / (ticks as f32)))
    } else {
        Ok(Cadence::Period((ticks as f32) / 8.0))
    }
}
