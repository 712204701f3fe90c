// The words of a report (01, "Words and sets", SPEC). A row is one processor's 112 totals; N is 2 to the power of the exponent passed.
#![tactic(auto)]

ghost use Rattle.std.specs.Prelude.{◌≡◌, ◌*◌, ◌/◌, ◌^◌, ◌<◌, ◌≤◌, length};
ghost use Rattle.refusal.specs.Outcome.{answer_outcome};
ghost use Rattle.lists.specs.Tables.{overwrite};
ghost use Rattle.bands.specs.Band.{size_exponent, width_exponent, band_width};
ghost use Rattle.registers.specs.Store.{band_count};
ghost use Rattle.codes.specs.Code.{band_code};
ghost use Rattle.settings.specs.Settings.{setting_of, averaged_spectra, spec_words};
ghost use Rattle.model.specs.Report.{report_bytes};
ghost use Rattle.report.specs.Writing.{mean_bits, report_left, report_written};
ghost use Rattle.report.specs.Private.{row_mean, row_bytes, ProcessorLeft};

use model::State;
use refusal::Refusal;
use registers::Registers;

// How a report takes its means: the bin setting, the words of a processor, and NAVG: N is 2 to its power.
#[derive(Clone, Copy)]
struct Averaging {
    setting: usize,
    words: usize,
    exponent: u32,
    ghost half: { words ≡ band_count setting / 2 },
    ghost small: { exponent ≤ 10 },
}

impl Averaging {
    fn of(registers: Registers) -> Self
        ensures setting_value { result.setting ≡ setting_of registers }
        ensures exponent_value { 2 ^ result.exponent ≡ averaged_spectra registers }
    {
        let setting = settings::bin_setting(registers) as usize;
        let words = settings::bands(registers) / 2;
        let exponent = 15 - u16::leading_zeros(settings::averaged_spectra(registers));
        Averaging {
            setting,
            words,
            exponent,
        }
    }

    // The number of bins of band b is 2 to this power.
    fn width_exponent(self, b: usize) -> u32
        requires { b < band_count self.setting }
        ensures { result ≡ width_exponent (size_exponent self.setting) b }
    {
        let octave = b >> (self.setting + 2);
        if octave == 0 { 0 } else { octave as u32 - 1 }
    }

    // The mean of band b from its total, rounded down.
    fn band_mean(self, total: u64, b: usize) -> u64
        requires { b < band_count self.setting }
        ensures { result ≡ total / (2 ^ self.exponent * band_width (size_exponent self.setting) b) }
    {
        total >> (self.exponent + self.width_exponent(b))
    }

    // The code of the mean of band b in 32 bits.
    fn band_code(self, row: &[u64], b: usize) -> u8
        requires row_len { length row.now ≡ 112 }
        requires b_bound { b < band_count self.setting }
        ensures { result ≡ band_code (row_mean self.setting self.exponent row.now b) }
    {
        codes::compress_band((self.band_mean(row[b], b) & 0xFFFF_FFFF) as u32)
    }

    // The words of one processor: the APID of SPEC, then two band codes.
    fn write_row(self, row: &[u64], out: &mut [u8])
        requires row_len { length row.now ≡ 112 }
        requires out_len { length out.old ≡ 3 * self.words }
        ensures { out.new ≡ row_bytes self.setting self.exponent row.now }
    {
        for j in 0..self.words {
            let upper = self.band_code(row, 2 * j + 1);
            let lower = self.band_code(row, 2 * j);
            let at = 3 * j;
            out[at..at + 3].copy_from_slice(&[words::SPEC, upper, lower]);
        }
    }

    // The words of a processor, if it is enabled; the answer is how many.
    fn write_if_enabled(self, enabled: bool, row: &[u64], out: &mut [u8]) -> usize
        requires row_len { length row.now ≡ 112 }
        requires out_len { length out.old ≡ 3 * self.words }
        ensures { ProcessorLeft enabled self.setting self.exponent row.now out.old out.new result }
    {
        if enabled {
            self.write_row(row, out);
            self.words
        } else {
            0
        }
    }
}

// The words of each enabled processor; the answer is how many.
fn write_rows(registers: Registers, totals: &[u64], out: &mut [u8]) -> usize
    requires totals_len { length totals.now ≡ 784 }
    requires in_bounds { 1176 ≤ length out.old }
    ensures { (out.new ≡ overwrite (report_bytes registers (mean_bits registers totals.now)) out.old) × (result ≡ spec_words registers) × (result ≤ 392) }
{
    let averaging = Averaging::of(registers);
    let mut written: usize = 0;
    for n in 0..Registers::COUNT {
        let slot = n * State::BANDS;
        let at = 3 * written;
        written += averaging.write_if_enabled(
            settings::enabled(registers, n),
            &totals[slot..slot + State::BANDS],
            &mut out[at..at + 3 * averaging.words],
        );
    }
    written
}

// Writes the words of a report, of means modulo 2^32, over the start of out; answers how many. Refused by 2 for another number of totals
// than 784, or an output shorter than the longest report.
pub fn write_report(registers: Registers, totals: &[u64], out: &mut [u8]) -> Result<u16, Refusal>
    ensures { report_left (answer_outcome result) out.new ≡ report_written registers totals.now out.old }
{
    if totals.len() != State::TOTALS {
        return Err(Refusal::WrongLength);
    }
    if out.len() < State::OUTPUT {
        return Err(Refusal::WrongLength);
    }
    Ok(write_rows(registers, totals, out) as u16)
}
