// Samples in a packet: two bytes each, high byte first.
#![tactic(auto)]

ghost use Rattle.std.specs.Prelude.{◌≡◌, ◌+◌, ◌*◌, ◌/◌, ◌%◌, ◌≤◌, length, set};
ghost use Rattle.lists.specs.Tables.{overwrite};
ghost use Rattle.refusal.specs.Outcome.{filled};
ghost use Rattle.fields.specs.Samples.{sample_bytes, samples_at, put_outcome, get_outcome};
ghost use Rattle.fields.specs.Private.{exchanged_bits, low_first_at};

use refusal::Refusal;

// 16 bits with their two bytes exchanged.
fn exchanged(bits: u16) -> u16
    ensures { result ≡ exchanged_bits bits }
{
    bits.swap_bytes()
}

// Writes 16 bits at the place of sample i, low byte first: the compiler makes one store of it, and of a loop of them wide ones.
fn put_low_first(bits: u16, i: usize, out: &mut [u8])
    requires { 2 * i + 2 ≤ length out.old }
    ensures { out.new ≡ set (set out.old (2 * i) (bits % 256)) (2 * i + 1) (bits / 256) }
{
    let [low, high] = bits.to_le_bytes();
    out[2 * i] = low;
    out[2 * i + 1] = high;
}

// Writes the bytes of each sample, where there is room for all.
fn put_each(samples: &[i16], out: &mut [u8])
    requires { 2 * length samples.now ≤ length out.old }
    ensures { out.new ≡ overwrite (sample_bytes samples.now) out.old }
{
    for i in 0..samples.len() {
        put_low_first(exchanged(words::bits_of(samples[i])), i, out);
    }
}

// Writes samples; answers the number of bytes written. Refused by 2.
pub fn put_samples(samples: &[i16], out: &mut [u8]) -> Result<usize, Refusal>
    ensures { filled result out.new ≡ put_outcome samples.now out.old }
{
    if out.len() / 2 < samples.len() {
        return Err(Refusal::WrongLength);
    }
    put_each(samples, out);
    Ok(2 * samples.len())
}

// The 16 bits at the place of sample i, low byte first: one load, as above.
fn low_first_at(bytes: &[u8], i: usize) -> u16
    requires { 2 * i + 2 ≤ length bytes.now }
    ensures { result ≡ low_first_at bytes.now i }
{
    u16::from_le_bytes([bytes[2 * i], bytes[2 * i + 1]])
}

// Reads n samples.
fn get_each(bytes: &[u8], n: usize, samples: &mut [i16])
    requires { (2 * n ≤ length bytes.now) × (n ≤ length samples.old) }
    ensures { samples.new ≡ overwrite (samples_at n bytes.now 0) samples.old }
{
    for i in 0..n {
        samples[i] = words::sample_of(exchanged(low_first_at(bytes, i)));
    }
}

// Reads all samples of the bytes; answers the number of samples written. Refused by 2.
pub fn get_samples(bytes: &[u8], samples: &mut [i16]) -> Result<usize, Refusal>
    ensures { filled result samples.new ≡ get_outcome bytes.now samples.old }
{
    if bytes.len() % 2 != 0 {
        return Err(Refusal::WrongLength);
    }
    let n = bytes.len() / 2;
    if samples.len() < n {
        return Err(Refusal::WrongLength);
    }
    get_each(bytes, n, samples);
    Ok(n)
}
