// A quota's value: a double that keeps its bits.
#![tactic(auto)]

ghost use Rattle.std.specs.Prelude.{◌≡◌};
ghost use Rattle.std.specs.Float.Ieee.{nan_bits};
ghost use Rattle.std.specs.Float.{binary64};
ghost use Rattle.quota.specs.Quota.{quota_of, bits_of, exactly_of, whole_of};

// The bits that a ClientQuota record holds, and the number that they spell. A bit pattern of no number has the value 0.0.
#[derive(Clone, Copy)]
pub struct Quota {
    pub bits: u64,
    pub number: bool,
    pub value: f64,
}

// Whether bits spell no number.
fn is_nan(bits: u64) -> bool
    ensures { result ≡ nan_bits binary64 bits }
{
    bits % 0x8000_0000_0000_0000 > 0x7ff0_0000_0000_0000
}

pub fn from_bits(bits: u64) -> Quota
    ensures { result ≡ quota_of bits }
{
    if is_nan(bits) {
        return Quota {
            bits,
            number: false,
            value: 0.0,
        };
    }
    Quota {
        bits,
        number: true,
        value: f64::from_bits(bits),
    }
}

// The bits of the number where there is one, else those that are kept.
pub fn to_bits(quota: Quota) -> u64
    ensures { result ≡ bits_of quota }
{
    let value = quota.value;
    if quota.number {
        if value == value {
            return f64::to_bits(value);
        }
    }
    quota.bits
}

// A whole number, where a value is one.
#[derive(Clone, Copy)]
pub enum Whole {
    Is(i64),
    None,
}

// The signed number of 64 bits that a value is.
fn exactly(value: f64) -> Whole
    ensures { result ≡ exactly_of value }
{
    if !(value >= -9223372036854775808.0) {
        return Whole::None;
    }
    if !(value < 9223372036854775808.0) {
        return Whole::None;
    }
    let n = std::num::truncating_f64_to_i64(value);
    if !(std::num::nearest_i64_to_f64(n) == value) {
        return Whole::None;
    }
    Whole::Is(n)
}

// The bits of -0.0.
const MINUS_ZERO: u64 = 0x8000_0000_0000_0000;

// The whole number that a value is, from -2^53 to 2^53: past these, doubles have gaps. None of -0.0, which has other bits than 0.
pub fn whole_number(quota: Quota) -> Whole
    ensures { result ≡ whole_of quota }
{
    if !quota.number {
        return Whole::None;
    }
    if quota.bits == MINUS_ZERO {
        return Whole::None;
    }
    let value = quota.value;
    if !(value >= -9007199254740992.0) {
        return Whole::None;
    }
    if !(value <= 9007199254740992.0) {
        return Whole::None;
    }
    exactly(value)
}
