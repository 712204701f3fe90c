// How the C interface (include/dfb.h) numbers its refusals: a base plus the number, which no other answer of that function equals.
#![tactic(auto)]

ghost use Rattle.std.specs.Prelude.{◌≡◌, ◌+◌, ◌%◌, ◌^◌};
ghost use Rattle.refusal.specs.Number.{number_of};
ghost use Rattle.dfb_refusals.specs.Numbers.{above16, above63, with_offset};

use refusal::Refusal;

// A refusal above 16-bit answers.
pub fn above_16(refusal: Refusal) -> u32
    ensures { result ≡ above16 + number_of refusal }
{
    0x10000 + refusal::number(refusal) as u32
}

// A refusal above 63-bit answers.
pub fn above_63(refusal: Refusal) -> u64
    ensures { result ≡ above63 + number_of refusal }
{
    0x8000_0000_0000_0000 + refusal::number(refusal) as u64
}

// A log of so many bytes is refused where refusals have offsets: these have 55 bits.
pub const TOO_LONG: usize = 0x80_0000_0000_0000;

// A refusal above 63-bit answers, with the lower 55 bits of its offset.
pub fn above_63_at(refusal: Refusal, offset: usize) -> u64
    ensures { result ≡ above63 + with_offset (number_of refusal) (offset % 2 ^ 55) }
{
    let high = offset as u64 % 0x80_0000_0000_0000 * 256;
    0x8000_0000_0000_0000 + high + refusal::number(refusal) as u64
}
