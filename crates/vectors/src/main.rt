// Prints what codes and bands answer for outside vectors: numbers of 01 and of ticket 5, all 256 band codes, the codes of values around
// each quarter of a step of the mantissa, the band of every FFT bin and every band of the frequency tables. tools/cases/vectors.py writes
// the expected output, from 01, ticket 5 and document 002.
#![tactic(auto)]

use bands::Cadence;
use refusal::Refusal;
use std::fmt::Display;
use std::io;
use std::io::{BufWriter, Write};

// The whole number, 0 to 8,192, that a float is; 99,999 for any other float.
fn whole_number(f: f32) -> u64 {
    for i in 0u16..8193 {
        if f == i as f32 {
            return i as u64;
        }
    }
    99999
}

// A value, or the number of a refusal, and the line's end.
fn show_answer<W: Write, T: Display + Drop>(
    writer: &mut W,
    answer: Result<T, Refusal>,
) -> io::Result<()> {
    match answer {
        Ok(value) => writeln!(writer, " {value}"),
        Err(refusal) => writeln!(writer, " refused {}", refusal::number(refusal)),
    }
}

fn show_band_code<W: Write>(writer: &mut W, value: u32) -> io::Result<()> {
    writeln!(
        writer,
        "band code of {value} {:02x}",
        codes::compress_band(value)
    )
}

fn show_band_values<W: Write>(writer: &mut W) -> io::Result<()> {
    for code in 0..=u8::MAX {
        write!(writer, "band code {code:02x}")?;
        show_answer(writer, codes::expand_band(code))?;
    }
    Ok(())
}

fn show_codes_around<W: Write>(writer: &mut W, value: u32) -> io::Result<()> {
    show_band_code(writer, value.wrapping_sub(1))?;
    show_band_code(writer, value)?;
    show_band_code(writer, value.wrapping_add(1))
}

fn show_small_codes<W: Write>(writer: &mut W) -> io::Result<()> {
    for value in [1, 4, 7, 10, 13, 16] {
        show_codes_around(writer, value)?;
    }
    Ok(())
}

// The codes around each quarter of a step of the mantissa.
fn show_nearest_codes<W: Write>(writer: &mut W) -> io::Result<()> {
    for exponent in 0u32..28 {
        for quarters in 16u32..32 {
            show_codes_around(writer, quarters << exponent)?;
        }
    }
    Ok(())
}

fn show_sum_code<W: Write>(writer: &mut W, value: u64) -> io::Result<()> {
    writeln!(
        writer,
        "sum code of {value} {:04x}",
        codes::compress_sum(value)
    )
}

fn show_sum_value<W: Write>(writer: &mut W, code: u16) -> io::Result<()> {
    write!(writer, "sum code {code:04x}")?;
    show_answer(writer, codes::expand_sum(code))
}

fn show_bin<W: Write>(writer: &mut W, setting: u8, bin: u16) -> io::Result<()> {
    write!(writer, "bin {setting} {bin}")?;
    show_answer(writer, bands::band_of(setting, bin))
}

// Every bin, and the first number past them.
fn show_bins<W: Write>(writer: &mut W, setting: u8) -> io::Result<()> {
    for bin in 0u16..1025 {
        show_bin(writer, setting, bin)?;
    }
    Ok(())
}

// A band, numbered from 1: low edge, high edge, width and centre.
fn show_description<W: Write>(writer: &mut W, setting: u8, band: u8) -> io::Result<()> {
    write!(writer, "band {setting} {}", band as u16 + 1)?;
    match bands::describe_band(setting, band) {
        Ok(d) => {
            let low = whole_number(d.low);
            let high = whole_number(d.low + d.width);
            let width = whole_number(d.width);
            let centre = whole_number(d.centre);
            writeln!(writer, " {low} {high} {width} {centre}")
        }
        Err(refusal) => writeln!(writer, " refused {}", refusal::number(refusal)),
    }
}

fn show_descriptions<W: Write>(writer: &mut W, setting: u8, count: u8) -> io::Result<()> {
    for band in 0..count {
        show_description(writer, setting, band)?;
    }
    Ok(())
}

fn show_cadences<W: Write>(writer: &mut W) -> io::Result<()> {
    for choice in 0u8..12 {
        write!(writer, "cadence {choice}")?;
        match bands::cadence_of(choice) {
            Ok(Cadence::Rate(f)) => writeln!(writer, " rate {}", whole_number(f))?,
            Ok(Cadence::Period(f)) => writeln!(writer, " period {}", whole_number(f))?,
            Err(refusal) => writeln!(writer, " refused {}", refusal::number(refusal))?,
        }
    }
    Ok(())
}

fn main(rt: HostRuntime) -> io::Result<()> {
    let mut writer = BufWriter::new(rt.alloc(), io::writer(&rt))?;
    show_band_code(&mut writer, 9)?;
    show_band_code(&mut writer, 15)?;
    show_band_code(&mut writer, 16)?;
    show_band_code(&mut writer, 4294967295)?;
    show_sum_code(&mut writer, 1023)?;
    show_sum_value(&mut writer, 0xFC00)?;
    show_bin(&mut writer, 0, 4)?;
    show_bin(&mut writer, 0, 1023)?;
    show_bin(&mut writer, 1, 1023)?;
    show_bin(&mut writer, 2, 1023)?;
    show_bin(&mut writer, 2, 1024)?;
    show_bin(&mut writer, 3, 0)?;
    show_band_values(&mut writer)?;
    show_small_codes(&mut writer)?;
    show_nearest_codes(&mut writer)?;
    show_cadences(&mut writer)?;
    show_bins(&mut writer, 0)?;
    show_bins(&mut writer, 1)?;
    show_bins(&mut writer, 2)?;
    show_descriptions(&mut writer, 0, 37)?;
    show_descriptions(&mut writer, 1, 65)?;
    show_descriptions(&mut writer, 2, 113)?;
    show_description(&mut writer, 3, 0)?;
    writer.flush()
}
