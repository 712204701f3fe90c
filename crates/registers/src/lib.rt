// The seven spectral registers 0x30 to 0x36 (01, "Registers 0x30 to 0x36"). Register n, counted from 0, belongs to processor n + 1.
#![tactic(auto)]

ghost use Rattle.std.specs.Prelude.{◌≡◌, ◌&&◌, ◌≤◌, leb};
ghost use Rattle.registers.specs.Store.{limited, low_stored, high_stored, stored_at, can_store};
ghost use Rattle.registers.specs.Access.{fields_of, at_reset, is_id, registers_sound, outcome_of, write_outcome};

use refusal::Refusal;

// The number of bands of the bin settings 0, 1 and 2.
pub const BAND_COUNTS: [u8; 3] = [36, 64, 112];

#[derive(Clone, Copy)]
pub struct Registers {
    pub value: [u16; Registers::COUNT],
}

// The fields of 16 bits of information.
#[derive(Clone, Copy)]
pub struct Fields {
    pub source: u16,
    pub enable: u16,
    pub bins: u16,
    pub navg: u16,
    pub ncad: u16,
}

// What a write leaves: its answer, and the registers afterwards.
#[derive(Clone, Copy)]
pub struct Write {
    pub answer: Result<u16, Refusal>,
    pub registers: Registers,
}

impl From<u16> for Fields {
    ghost from_gives = { λ information fields. fields ≡ fields_of information };

    // Source 4:0, enable 5, bins 7:6, NAVG 11:8, NCAD 15:12.
    fn from(information: u16) -> Self {
        Fields {
            source: information % 32,
            enable: information / 32 % 2,
            bins: information / 64 % 4,
            navg: information / 256 % 16,
            ncad: information / 4096,
        }
    }
}

// A field at most the limit is kept, and any other becomes the default.
fn limited_field(field: u16, limit: u16, default: u16) -> u16
    ensures { result ≡ limited limit default field }
{
    if field <= limit { field } else { default }
}

// Enable and source as stored.
fn low_stored(default: u16, information: u16) -> u16
    requires { default ≤ 0x16 }
    ensures { result ≡ low_stored default information }
{
    let fields = Fields::from(information);
    fields.enable * 32 + limited_field(fields.source, Registers::SOURCE_LIMIT, default)
}

// NCAD, NAVG and bins as 0x30 stores them.
fn high_stored(information: u16) -> u16
    ensures { result ≡ high_stored information }
{
    let fields = Fields::from(information);
    let ncad = limited_field(fields.ncad, Registers::NCAD_LIMIT, Registers::NCAD_DEFAULT);
    let navg = limited_field(fields.navg, Registers::NAVG_LIMIT, Registers::NAVG_DEFAULT);
    let bins = limited_field(fields.bins, Registers::BINS_LIMIT, Registers::BINS_DEFAULT);
    ncad * 4096 + navg * 256 + bins * 64
}

// What register n stores of the information.
pub fn stored_at(n: usize, information: u16) -> u16
    ensures { result ≡ stored_at n information }
{
    if n == 0 {
        high_stored(information) + low_stored(Registers::FIRST_SOURCE_DEFAULT, information)
    } else {
        low_stored(Registers::SOURCE_DEFAULT, information)
    }
}

// Whether NCAD, NAVG and bins are within their limits.
fn high_within(ncad: u16, navg: u16, bins: u16) -> bool
    ensures { result ≡ (leb ncad 0xA && (leb navg 0xA && leb bins 2)) }
{
    ncad <= Registers::NCAD_LIMIT && navg <= Registers::NAVG_LIMIT && bins <= Registers::BINS_LIMIT
}

// Whether a write can store the value in register n: each field is within its limit, and outside 0x30 bits 15:6 are 0.
fn can_store(n: usize, value: u16) -> bool
    ensures { result ≡ can_store n value }
{
    let fields = Fields::from(value);
    if Registers::SOURCE_LIMIT < fields.source {
        return false;
    }
    if n == 0 {
        high_within(fields.ncad, fields.navg, fields.bins)
    } else {
        value < 64
    }
}

// Whether the ID is that of a register.
pub fn is_id(id: u8) -> bool
    ensures { result ≡ is_id id }
{
    Registers::FIRST_ID <= id && id <= Registers::LAST_ID
}

impl Registers {
    pub const FIRST_ID: u8 = 0x30;

    pub const LAST_ID: u8 = 0x36;

    pub const COUNT: usize = 7;

    pub const SOURCE_LIMIT: u16 = 0x16;

    pub const FIRST_SOURCE_DEFAULT: u16 = 0x03;

    pub const SOURCE_DEFAULT: u16 = 0x12;

    pub const BINS_LIMIT: u16 = 2;

    pub const BINS_DEFAULT: u16 = 1;

    pub const NAVG_LIMIT: u16 = 0xA;

    pub const NAVG_DEFAULT: u16 = 3;

    pub const NCAD_LIMIT: u16 = 0xA;

    pub const NCAD_DEFAULT: u16 = 6;

    // All registers are 0 after reset.
    pub fn reset() -> Self
        ensures { result ≡ at_reset }
    {
        Registers {
            value: [0u16; Registers::COUNT],
        }
    }

    // Each register is a value that a write can store.
    pub fn is_sound(self) -> bool
        ensures { result ≡ registers_sound self }
    {
        for n in 0..Registers::COUNT {
            if !can_store(n, self.value[n]) {
                return false;
            }
        }
        true
    }

    // Stores the information in the register of the ID and answers the value stored. Refused by 3, then 1.
    pub fn write(self, id: u8, information: u16) -> Write
        ensures { outcome_of result ≡ write_outcome self id information }
    {
        if !self.is_sound() {
            return Write {
                answer: Err(Refusal::UnsoundState),
                registers: self,
            };
        }
        if !is_id(id) {
            return Write {
                answer: Err(Refusal::UnknownCommand),
                registers: self,
            };
        }
        let n = (id - Registers::FIRST_ID) as usize;
        let stored = stored_at(n, information);
        let mut next = self;
        next.value[n] = stored;
        Write {
            answer: Ok(stored),
            registers: next,
        }
    }
}
