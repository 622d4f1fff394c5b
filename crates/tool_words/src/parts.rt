// The fields of a run in words: a record's body, an element, or a nested partition.
ghost use Rattle.std.specs.Prelude.{◌≤◌, length};

use crate::{say, say_digits, say_name, say_of};
use fields::{Cursor, Found};
use keys::Part;
use reader::field;
use std::io::Stdout;

// Where the value of a field stands, nothing at the start where there is none.
pub fn part_of(run: &[u8], tag: usize) -> Part
    ensures { (result.start ≤ result.end) × (result.end ≤ length run.now) }
{
    let all = Cursor {
        at: 0,
        to: run.len(),
    };
    match field(run, all, tag) {
        Found::Part { start, len } => Part {
            start,
            end: start + len,
        },
        Found::Missing => Part { start: 0, end: 0 },
    }
}

// Whether a field is there.
pub fn has(run: &[u8], tag: usize) -> bool {
    let p = part_of(run, tag);
    0 < p.end
}

// The name in a field, none where it is not there.
pub fn say_text(stdout: Stdout, run: &[u8], tag: usize) -> bool {
    let p = part_of(run, tag);
    let start = p.start;
    let end = p.end;
    say_name(stdout, &run[start..end])
}

// The number that a field of at most eight bytes spells, 0 where there is none.
pub fn number_in(run: &[u8], tag: usize) -> u64 {
    let p = part_of(run, tag);
    let start = p.start;
    let end = p.end;
    if 8 < end - start {
        return 0;
    }
    wire::get(run, start, end - start)
}

// A word, and the number of a field behind it.
pub fn say_number_in(stdout: Stdout, words: &[u8], run: &[u8], tag: usize) -> bool {
    say_of(stdout, words, number_in(run, tag))
}

// The first number of a width that is negative when signed.
fn half_of(width: usize) -> u64 {
    match width {
        2 => 0x8000,
        4 => 0x8000_0000,
        _ => 0x8000_0000_0000_0000,
    }
}

// A word, and the signed number of a field of two, four or eight bytes behind it.
pub fn say_signed_in(stdout: Stdout, words: &[u8], run: &[u8], tag: usize) -> bool {
    let p = part_of(run, tag);
    let n = number_in(run, tag);
    let half = half_of(p.end - p.start);
    if n < half {
        return say_of(stdout, words, n);
    }
    if half < n - half {
        return say_of(stdout, words, n);
    }
    say(stdout, words) && say_of(stdout, b"-", half - (n - half))
}

// The sixteen bytes of an id as digits.
pub fn say_id(stdout: Stdout, run: &[u8], tag: usize) -> bool {
    let p = part_of(run, tag);
    let start = p.start;
    if p.end - start != 16 {
        return true;
    }
    say_digits(stdout, wire::get(run, start, 8)) && say_digits(stdout, wire::get(run, start + 8, 8))
}
