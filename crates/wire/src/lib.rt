// Bytes: numbers in big-endian, comparing, moving and clearing, and the UTF-8 test. What callers must see to stands in each `requires`; the
// operations above ask nothing of theirs.
#![tactic(auto)]

ghost use Rattle.std.specs.Prelude.{◌≡◌, ◌++◌, ◌+◌, ◌<◌, ◌≤◌, length, take, drop, replicate, eqb};
ghost use Rattle.std.proofs.Math.Seq.{slice, paste};
ghost use Rattle.model.specs.Choice.{every};
ghost use Rattle.model.specs.Number.{number, bytes, span, place as place_among, is_offset};
ghost use Rattle.model.specs.Order.{compare_bytes, same_bytes, ordering};
ghost use Rattle.model.specs.Lookup.{begins_with};
ghost use Rattle.model.specs.Text.{is_text};

use std::cmp::Ordering;
use std::str;

// The first number of eight bytes that is negative when signed, which is the place of 0 among the signed ones; and -1.
pub const HALF: u64 = 0x8000_0000_0000_0000;

const MINUS_ONE: u64 = 0xffff_ffff_ffff_ffff;

// A byte as a wide number.
pub fn wide(x: u8) -> u64
    ensures { result ≡ x }
{
    x as u64
}

// A byte as a length.
pub fn size(x: u8) -> usize
    ensures { (result ≡ x) × (result < 256) }
{
    x as usize
}

// The number that the two bytes at `at` spell, as a length.
pub fn get16(s: &[u8], at: usize) -> usize
    requires { at + 2 ≤ length s.now }
    ensures { (result ≡ number (slice at (at + 2) s.now)) × (result < 65536) }
{
    u16::from_be_bytes([s[at], s[at + 1]]) as usize
}

// The number that the `width` bytes at `at` spell.
pub fn get(s: &[u8], at: usize, width: usize) -> u64
    requires { (width ≤ 8) × (at + width ≤ length s.now) }
    ensures { (result ≡ number (slice at (at + width) s.now)) × (result < span width) }
{
    let part = &s[at..at + width];
    let mut v = 0;
    for x in part {
        v = v * 256 + wide(*x);
    }
    v
}

// Writes a number as `width` bytes at `at`; what does not fit them is lost from above.
pub fn put(s: &mut [u8], at: usize, width: usize, n: u64)
    requires { at + width ≤ length s.old }
    ensures { s.new ≡ take at s.old ++ bytes width n ++ drop (at + width) s.old }
{
    let mut rest = n;
    for i in (0..width).rev() {
        s[at + i] = (rest % 256) as u8;
        rest /= 256;
    }
}

// The place of a number of eight bytes among the signed ones, and the number whose place is given: the sign bit is turned.
pub fn place(n: u64) -> u64
    ensures { result ≡ place_among 8 n }
{
    n.wrapping_add(HALF)
}

// Whether a number of eight bytes is a log offset: -1, or not negative.
#[tactic(auto, unfolding(model::specs::Number::is_offset))]
pub fn is_offset(n: u64) -> bool
    ensures { result ≡ is_offset n }
{
    n < HALF || n == MINUS_ONE
}

// The order of two byte strings: byte by byte, a string before its longer continuations.
pub fn compare(a: &[u8], b: &[u8]) -> Ordering
    ensures { ordering result ≡ compare_bytes a.now b.now }
{
    a.cmp(&b)
}

// Whether two byte strings are the same.
pub fn same(a: &[u8], b: &[u8]) -> bool
    ensures { result ≡ same_bytes a.now b.now }
{
    a == b
}

// Whether a byte string begins with another.
pub fn begins_with(s: &[u8], prefix: &[u8]) -> bool
    ensures { result ≡ begins_with prefix.now s.now }
{
    s.starts_with(prefix)
}

// Copies all of `src` into `dst` from `at` on. Not by `copy_from_slice`, which calls `memmove`: the library for C needs `memcpy` and `memset` alone.
pub fn copy(dst: &mut [u8], at: usize, src: &[u8])
    requires { at + length src.now ≤ length dst.old }
    ensures { dst.new ≡ take at dst.old ++ src.now ++ drop (at + length src.now) dst.old }
{
    for i in 0..src.len() {
        dst[at + i] = src[i];
    }
}

// Moves the n bytes from `from` to `to`, which is not past it.
fn shift_down(w: &mut [u8], from: usize, to: usize, n: usize)
    requires { (to ≤ from) × (from + n ≤ length w.old) }
    ensures { w.new ≡ paste w.old to (drop from w.old) n }
{
    for i in 0..n {
        w[to + i] = w[from + i];
    }
}

// Moves the n bytes from `from` to `to`, which is not before it.
fn shift_up(w: &mut [u8], from: usize, to: usize, n: usize)
    requires { (from ≤ to) × (to + n ≤ length w.old) }
    ensures { w.new ≡ paste w.old to (drop from w.old) n }
{
    for i in (0..n).rev() {
        w[to + i] = w[from + i];
    }
}

// Moves the n bytes from `from` to `to`; the two parts may overlap.
pub fn shift(w: &mut [u8], from: usize, to: usize, n: usize)
    requires { (from + n ≤ length w.old) × (to + n ≤ length w.old) }
    ensures { w.new ≡ paste w.old to (drop from w.old) n }
{
    match to.cmp(&from) {
        Ordering::Less => shift_down(w, from, to, n),
        Ordering::Equal => {}
        Ordering::Greater => shift_up(w, from, to, n),
    }
}

// Sets every byte to 0.
pub fn clear(s: &mut [u8])
    ensures { s.new ≡ replicate (length s.old) 0 }
{
    s.fill(0);
}

// Whether every byte is 0.
pub fn is_clear(s: &[u8]) -> bool
    ensures { result ≡ every (λ x. eqb x 0) s.now }
{
    for x in s {
        if *x != 0 {
            return false;
        }
    }
    true
}

// Whether the bytes are UTF-8.
pub fn is_text(s: &[u8]) -> bool
    ensures { result ≡ is_text s.now }
{
    str::from_utf8(s).is_ok()
}
