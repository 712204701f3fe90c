// Waveform sets (01, "Words and sets"): sets of signed samples to bytes and back.
#![tactic(auto)]

ghost use Rattle.std.specs.Prelude.{◌≡◌, ◌+◌, ◌*◌, ◌/◌, ◌≤◌, length};
ghost use Rattle.std.proofs.lemmas.List.Edits.{sets};
ghost use Rattle.lists.specs.Tables.{overwrite};
ghost use Rattle.refusal.specs.Outcome.{given, filled};
ghost use Rattle.words.specs.Words.{word_bytes};
ghost use Rattle.sets.specs.Sets.{packed_bytes, pack_sized, pack_outcome, every_apid, samples_of, unpack_sized, unpack_outcome};

use refusal::Refusal;

// Writes one word at a place.
fn put_word(out: &mut [u8], at: usize, apid: u8, bits: u16)
    requires { at + 3 ≤ length out.old }
    ensures { out.new ≡ sets out.old at (word_bytes apid bits) }
{
    let [high, low] = bits.to_be_bytes();
    out[at] = apid;
    out[at + 1] = high;
    out[at + 2] = low;
}

// Writes the words of the samples.
fn put_words(apid: u8, samples: &[i16], out: &mut [u8])
    requires { 3 * length samples.now ≤ length out.old }
    ensures { out.new ≡ overwrite (packed_bytes apid samples.now) out.old }
{
    for (i, sample) in samples.iter().enumerate() {
        put_word(out, 3 * i, apid, words::bits_of(*sample));
    }
}

// Packs a set of as many words into bytes. Refused by 2.
fn pack_set(apid: u8, words: usize, samples: &[i16], out: &mut [u8]) -> Result<usize, Refusal>
    requires { words ≤ 7 }
    ensures { filled result out.new ≡ pack_sized apid samples.now out.old (given words) }
{
    if samples.len() != words {
        return Err(Refusal::WrongLength);
    }
    if out.len() < 3 * words {
        return Err(Refusal::WrongLength);
    }
    put_words(apid, samples, out);
    Ok(3 * words)
}

// Packs one set of samples into words; answers the bytes written. Refused by 4, then 2.
pub fn pack(apid: u8, samples: &[i16], out: &mut [u8]) -> Result<usize, Refusal>
    ensures { filled result out.new ≡ pack_outcome apid samples.now out.old }
{
    pack_set(apid, words::set_words(apid)?, samples, out)
}

// Whether each whole word of the bytes has the APID.
pub fn every_apid(apid: u8, bytes: &[u8]) -> bool
    ensures { result ≡ every_apid apid (length bytes.now / 3) bytes.now }
{
    for i in 0..bytes.len() / 3 {
        if bytes[3 * i] != apid {
            return false;
        }
    }
    true
}

// Writes the samples of n words.
fn put_samples(n: usize, bytes: &[u8], samples: &mut [i16])
    requires { (3 * n ≤ length bytes.now) × (n ≤ length samples.old) }
    ensures { samples.new ≡ overwrite (samples_of n bytes.now) samples.old }
{
    for i in 0..n {
        samples[i] = words::sample_of(words::pair(bytes[3 * i + 1], bytes[3 * i + 2]));
    }
}

// Unpacks the bytes of a set of as many words. Refused by 2, then 5.
fn unpack_set(apid: u8, words: usize, bytes: &[u8], samples: &mut [i16]) -> Result<usize, Refusal>
    requires { words ≤ 7 }
    ensures { filled result samples.new ≡ unpack_sized apid bytes.now samples.old (given words) }
{
    if bytes.len() != 3 * words {
        return Err(Refusal::WrongLength);
    }
    if samples.len() < words {
        return Err(Refusal::WrongLength);
    }
    if !every_apid(apid, bytes) {
        return Err(Refusal::IncompleteSet);
    }
    put_samples(words, bytes, samples);
    Ok(words)
}

// Unpacks the words of one set into samples; answers the samples written. Refused by 4, then 2, then 5.
pub fn unpack(apid: u8, bytes: &[u8], samples: &mut [i16]) -> Result<usize, Refusal>
    ensures { filled result samples.new ≡ unpack_outcome apid bytes.now samples.old }
{
    unpack_set(apid, words::set_words(apid)?, bytes, samples)
}
