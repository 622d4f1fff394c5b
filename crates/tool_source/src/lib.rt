// A file's bytes through a window: a record is never longer than the window is.
#![tactic(auto)]

ghost use Rattle.std.specs.Prelude.{◌≡◌, ◌+◌, ◌≤◌, length};

use std::io::{Error, Read};

// Standard error's number.
const STDERR: i32 = 2;

// The most bytes of a record: three, and a body whose length has two bytes.
const RECORD: usize = 65538;

// No file has so many bytes.
const FAR: u64 = 0x7fff_ffff_ffff_ffff;

// After so many records a line says how far the reading is.
const PROGRESS: u64 = 100000;

// The window's bytes from `at` to `end` are still to be taken; the first of them is the file's byte `place`. `more`: the file may have more.
// `failed`: why a read failed, and nothing is to be taken any more.
#[derive(Drop)]
pub struct Source {
    pub at: usize,
    pub end: usize,
    pub place: u64,
    pub more: bool,
    pub failed: Option<Error>,
}

// Before the file's first byte.
pub fn start() -> Source
    ensures { (result.at ≡ 0) × (result.end ≡ 0) }
{
    Source {
        at: 0,
        end: 0,
        place: 0,
        more: true,
        failed: None,
    }
}

// Moves the bytes that are left to the window's start.
fn slide(window: &mut [u8], at: usize, end: usize)
    requires { (at ≤ end) × (end ≤ length window.old) }
{
    let mut i = at;
    while i < end {
        window[i - at] = window[i];
        i += 1;
    }
}

// No more bytes come: the file ended, or could not be read. Of a file that could not, nothing more is taken.
fn ended(end: usize, place: u64, failed: Option<Error>) -> Source
    ensures { (result.at ≡ 0) × (result.end ≤ end) }
{
    let mut left = end;
    if failed.is_some() {
        left = 0;
    }
    Source {
        at: 0,
        end: left,
        place,
        more: false,
        failed,
    }
}

// Reads behind the window's first bytes until a whole record is there, the file ends or a read fails.
fn fill<R: Read>(file: &mut R, window: &mut [u8], left: usize, place: u64) -> Source
    requires { left ≤ length window.old }
    ensures { (result.at ≤ result.end) × (result.end ≤ length window.old) }
{
    let mut end = left;
    while end < RECORD {
        match file.read(&mut window[end..]) {
            Ok(0) => return ended(end, place, None),
            Ok(n) => end += n,
            Err(error) => return ended(end, place, Some(error)),
        }
    }
    Source {
        at: 0,
        end,
        place,
        more: true,
        failed: None,
    }
}

// Fills the window where it may not have a whole record.
pub fn refill<R: Read>(file: &mut R, window: &mut [u8], source: Source) -> Source
    requires { (source.at ≤ source.end) × (source.end ≤ length window.old) }
    ensures { (result.at ≤ result.end) × (result.end ≤ length window.old) }
{
    let left = source.end - source.at;
    if !source.more || RECORD <= left {
        return source;
    }
    slide(window, source.at, source.end);
    fill(file, window, left, source.place)
}

// The source after so many bytes more are taken.
pub fn passed(source: Source, n: usize) -> Source
    requires { (source.at + n ≤ source.end) × (source.end ≤ 262144) }
    ensures { (result.at ≤ result.end) × (result.end ≡ source.end) }
{
    let mut place = source.place;
    if place < FAR {
        place = place + n as u64;
    }
    Source {
        at: source.at + n,
        end: source.end,
        place,
        more: source.more,
        failed: source.failed,
    }
}

// Says how far a long file has been read.
pub fn print_progress(records: u64, place: u64) {
    if records % PROGRESS != 0 {
        return;
    }
    io::print_decimal(STDERR, records);
    io::write_all(STDERR, b" records, ");
    io::print_decimal(STDERR, place);
    io::write_all(STDERR, b" bytes\n");
}
