// Board words (01, "Words and sets"): an APID and 16 bits; samples; and the words of a set.
#![tactic(auto)]

ghost use Rattle.std.specs.Prelude.{◌≡◌};
ghost use Rattle.refusal.specs.Outcome.{answer_outcome};
ghost use Rattle.words.specs.Sample.{bits_of, sample_of};
ghost use Rattle.words.specs.Words.{set_size, is_apid, pair_of};

use refusal::Refusal;

// The 16 bits of a sample.
pub fn bits_of(sample: i16) -> u16
    ensures { result ≡ bits_of sample }
{
    sample.cast_unsigned()
}

// The sample of 16 bits.
pub fn sample_of(bits: u16) -> i16
    ensures { result ≡ sample_of bits }
{
    bits.cast_signed()
}

// The words of a set, by its waveform APID. Refused by 4.
pub fn set_words(apid: u8) -> Result<usize, Refusal>
    ensures { answer_outcome result ≡ set_size apid }
{
    match apid {
        0x43 => Ok(3),
        0x44 => Ok(7),
        0x45 => Ok(3),
        0x46 => Ok(3),
        0x47 => Ok(7),
        0x48 => Ok(3),
        _ => Err(Refusal::UnknownApid),
    }
}

// The APID of SPEC words, which are in no waveform set.
pub const SPEC: u8 = 0x4E;

// Whether words of the APID are kept: a waveform's, or SPEC.
pub fn is_apid(apid: u8) -> bool
    ensures { result ≡ is_apid apid }
{
    apid == SPEC || set_words(apid).is_ok()
}

// 16 bits from two bytes, high byte first.
pub fn pair(high: u8, low: u8) -> u16
    ensures { result ≡ pair_of high low }
{
    u16::from_be_bytes([high, low])
}
