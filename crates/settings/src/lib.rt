// What the spectral registers set (01, "Registers 0x30 to 0x36", "Periods" and "Words and sets"). Bins, NAVG and NCAD are those that 0x30
// stores; a field that no write can store counts as what a write of it would store.
#![tactic(auto)]

ghost use Rattle.std.specs.Prelude.{◌≡◌};
ghost use Rattle.registers.specs.Access.{fields_of};
ghost use Rattle.settings.specs.Settings.{first_stored, setting_of, bands_of, averaged_spectra, period_ticks, enabled_of, enabled_count, running_of};

use registers::{Fields, Registers};

// The fields of 0x30 as stored.
fn first_fields(registers: Registers) -> Fields
    ensures { result ≡ fields_of (first_stored registers) }
{
    Fields::from(registers::stored_at(0, registers.value[0]))
}

// The bin setting: 0, 1 or 2.
pub fn bin_setting(registers: Registers) -> u8
    ensures { result ≡ setting_of registers }
{
    first_fields(registers).bins as u8
}

// The number of bands that every processor reports.
#[tactic(auto, using(crate::proofs::Settings::setting_bound))]
pub fn bands(registers: Registers) -> usize
    ensures { result ≡ bands_of registers }
{
    registers::BAND_COUNTS[bin_setting(registers) as usize] as usize
}

// N, the number of spectra of a report.
pub fn averaged_spectra(registers: Registers) -> u16
    ensures { result ≡ averaged_spectra registers }
{
    1u16 << first_fields(registers).navg
}

// C, the number of ticks of a period.
pub fn period_ticks(registers: Registers) -> u16
    ensures { result ≡ period_ticks registers }
{
    1u16 << first_fields(registers).ncad
}

// Whether processor n, counted from 0, is enabled.
pub fn enabled(registers: Registers, n: usize) -> bool
    ensures { result ≡ enabled_of registers n }
{
    match registers.value.get(n) {
        Some(value) => Fields::from(*value).enable == 1,
        None => false,
    }
}

// How many processors are enabled.
pub fn enabled_count(registers: Registers) -> usize
    ensures { result ≡ enabled_count registers }
{
    (0..Registers::COUNT)
        .map(|n| enabled(registers, n) as usize)
        .sum()
}

// Whether some processor is enabled and N is at most C.
pub fn running(registers: Registers) -> bool
    ensures { result ≡ running_of registers }
{
    enabled_count(registers) != 0 && averaged_spectra(registers) <= period_ticks(registers)
}
