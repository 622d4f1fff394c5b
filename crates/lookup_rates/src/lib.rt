// Rates: a config's value read as Rust reads an i64, where it is not negative.
#![tactic(auto)]

ghost use Rattle.std.specs.Prelude.{◌≡◌, ◌≤◌, length};
ghost use Rattle.lookup_rates.specs.Rates.{DigitsAre, MagnitudeIs, rate_in, rated, less_rate};

// 2^63, which no number reaches, and the greatest number that a digit can follow.
const LIMIT: u64 = 0x8000_0000_0000_0000;

const MOST: u64 = 922_337_203_685_477_580;

// A number, or nothing that reads as one below 2^63.
#[derive(Clone, Copy)]
pub enum Rate {
    Is(u64),
    None,
}

// The number that decimal digits spell from a place on.
fn digits_from(s: &[u8], from: usize) -> Rate
    requires { from ≤ length s.now }
    ensures { DigitsAre s.now from result }
{
    let mut n: u64 = 0;
    let mut i = from;
    while i < s.len() {
        let d = s[i];
        if d < 0x30 {
            return Rate::None;
        }
        if 0x39 < d {
            return Rate::None;
        }
        if MOST < n {
            return Rate::None;
        }
        n = n * 10 + wire::wide(d - 0x30);
        i += 1;
    }
    if n < LIMIT {
        return Rate::Is(n);
    }
    Rate::None
}

// The same of at least one digit.
fn magnitude_from(s: &[u8], from: usize) -> Rate
    requires { from ≤ length s.now }
    ensures { MagnitudeIs s.now from result }
{
    if s.len() == from {
        return Rate::None;
    }
    digits_from(s, from)
}

// A number after a minus sign: 0, or negative.
fn unless_negative(rate: Rate) -> Rate
    ensures { result ≡ less_rate rate }
{
    match rate {
        Rate::Is(n) => {
            if n == 0 {
                return Rate::Is(0);
            }
            Rate::None
        }
        Rate::None => Rate::None,
    }
}

// The rate that a value spells: an optional sign, at least one digit and nothing else. What is negative, unreadable or no i64 is none.
pub fn rate_of(v: &[u8]) -> Rate
    ensures { rated result ≡ rate_in v.now }
{
    if v.len() == 0 {
        return Rate::None;
    }
    if v[0] == 0x2b {
        return magnitude_from(v, 1);
    }
    if v[0] == 0x2d {
        return unless_negative(magnitude_from(v, 1));
    }
    magnitude_from(v, 0)
}
