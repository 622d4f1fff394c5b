// Kafka's unsigned varints: seven bits in a byte, the lowest first. A byte from 128 on is followed by another; the fifth is the last.
#![tactic(auto)]

ghost use Rattle.std.specs.Prelude.{◌≡◌, ◌++◌, ◌+◌, ◌<◌, ◌≤◌, length, take, drop};
ghost use Rattle.model.specs.Kafka.{varint};
ghost use Rattle.varints.specs.Varints.{VarintAs, LastAs};

use model::refusals::{PAST_THE_END, WRONG};
use wire::wide;

// The weight of the fifth byte, and the largest that it may be: a varint has 32 bits.
const FIFTH: u64 = 0x1000_0000;

const FIFTH_LIMIT: u64 = 15;

// A number with the place after its bytes, or a refusal's number.
#[derive(Clone, Copy)]
pub enum Varint {
    Is(u64, usize),
    Refused(u8),
}

// The fifth byte of a varint whose others make n.
fn read_fifth(s: &[u8], at: usize, n: u64) -> Varint
    requires { (at ≤ length s.now) × (n < 268435456) }
    ensures { LastAs s.now at n result }
{
    if at == s.len() {
        return Varint::Refused(PAST_THE_END);
    }
    let b = wide(s[at]);
    if FIFTH_LIMIT < b {
        return Varint::Refused(WRONG);
    }
    Varint::Is(n + b * FIFTH, at + 1)
}

// Reads the varint at `at`, which may be longer than it needs to be.
pub fn read_varint(s: &[u8], at: usize) -> Varint
    requires { at ≤ length s.now }
    ensures { VarintAs s.now at result }
{
    let mut to = at;
    let mut n: u64 = 0;
    let mut weight: u64 = 1;
    let mut more: usize = 4;
    while 0 < more {
        if to == s.len() {
            return Varint::Refused(PAST_THE_END);
        }
        let b = wide(s[to]);
        to = to + 1;
        if b < 128 {
            return Varint::Is(n + b * weight, to);
        }
        n = n + (b - 128) * weight;
        weight = weight * 128;
        more = more - 1;
    }
    read_fifth(s, to, n)
}

// How many bytes the shortest varint of a number below 16,384 has.
pub fn varint_size(n: usize) -> usize
    requires { n < 16384 }
    ensures { result ≡ length (varint n) }
{
    if n < 128 {
        return 1;
    }
    2
}

// Writes the shortest varint of a number below 16,384. Where it ends.
pub fn put_varint(out: &mut [u8], at: usize, n: usize) -> usize
    requires { (n < 16384) × (at + length (varint n) ≤ length out.old) }
    ensures { (result ≡ at + length (varint n)) × (out.new ≡ take at out.old ++ varint n ++ drop (at + length (varint n)) out.old) }
{
    if n < 128 {
        out[at] = n as u8;
        return at + 1;
    }
    out[at] = (n % 128 + 128) as u8;
    out[at + 1] = (n / 128) as u8;
    at + 2
}
