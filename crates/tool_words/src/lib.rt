// Words and numbers on standard output, kinds and verdicts in words, and what went wrong on standard error.
//
// What says something answers whether it was written. Where it was not, standard error has why, and whoever asked says no more.
#![tactic(auto)]

pub mod names;
pub mod parts;

ghost use Rattle.std.specs.Prelude.{◌≤◌, length};

use arrayvec::ArrayString;
use std::fmt::Write;
use std::io::{Error, Print, Stdout};

// Standard error's number.
const STDERR: i32 = 2;

// The words of an error, without the code that stands behind the system's ones.
fn words_of(text: &str) -> &str {
    match text.rsplit_once(" (os error ") {
        Some((words, _)) => words,
        None => text,
    }
}

// A line on standard error: what failed, and why.
pub fn fail(what: &[u8], error: Error) {
    let mut text = ArrayString::<256>::new();
    let _ = write!(text, "{error}");
    io::write_all(STDERR, what);
    io::write_all(STDERR, b": ");
    io::write_all(STDERR, words_of(text.as_str()).as_bytes());
    io::write_all(STDERR, b"\n");
}

// The answer of a write; where it failed, standard error has why.
fn explained(written: Result<(), Error>) -> bool {
    match written {
        Ok(()) => true,
        Err(error) => {
            fail(b"standard output", error);
            false
        }
    }
}

pub fn say(stdout: Stdout, words: &[u8]) -> bool {
    explained(stdout.write_all(words))
}

pub fn say_number(stdout: Stdout, n: u64) -> bool {
    let mut digits = [0u8; 20];
    let count = io::decimal(n, &mut digits);
    say(stdout, &digits[..count])
}

// A word, and a number behind it.
pub fn say_of(stdout: Stdout, words: &[u8], n: u64) -> bool {
    say(stdout, words) && say_number(stdout, n)
}

// All sixteen digits of a number.
pub fn say_digits(stdout: Stdout, bits: u64) -> bool {
    let mut digits = [0u8; 16];
    let count = io::hex(bits, 16, &mut digits);
    say(stdout, &digits[..count])
}

// A number's digits, as those of bits.
pub fn say_bits(stdout: Stdout, bits: u64) -> bool {
    say(stdout, b"0x") && say_digits(stdout, bits)
}

// How far a number is from 0.
fn magnitude(n: i64) -> u64 {
    if n >= 0 {
        return n as u64;
    }
    ((-1 - n) as u64) + 1
}

pub fn say_integer(stdout: Stdout, n: i64) -> bool {
    if n >= 0 {
        return say_number(stdout, magnitude(n));
    }
    say_of(stdout, b"-", magnitude(n))
}

// Where the first control byte of a name from a place on stands, or the name's end.
fn plain_end(name: &[u8], at: usize) -> usize
    requires { at ≤ length name.now }
    ensures { (at ≤ result) × (result ≤ length name.now) }
{
    let mut end = at;
    while end < name.len() {
        if name[end] < 32 || name[end] == 127 {
            return end;
        }
        end += 1;
    }
    end
}

// A name, with a mark for each control byte: a name cannot make a line of its own.
pub fn say_name(stdout: Stdout, name: &[u8]) -> bool {
    let mut at = 0;
    while at < name.len() {
        let end = plain_end(name, at);
        if !say(stdout, &name[at..end]) {
            return false;
        }
        if name.len() <= end {
            return true;
        }
        if !say(stdout, b"?") {
            return false;
        }
        at = end + 1;
    }
    true
}

// A line on standard error.
pub fn complain(words: &[u8]) {
    io::write_all(STDERR, b"inspect: ");
    io::write_all(STDERR, words);
    io::write_all(STDERR, b"\n");
}
