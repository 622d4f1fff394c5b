// Every difference of two snapshots, in words. The records of both stand in the order of their keys.
ghost use Rattle.std.specs.Prelude.{◌≤◌, ◌<◌, length};

use crate::records_apart::{key_tag, same_key, say_fields};
use crate::snapshots::end_of;
use std::io::Stdout;
use tool_subjects::say_subject;
use tool_words::say;

// How far the other snapshot was taken, and whether all that was said was written.
#[derive(Clone, Copy)]
struct Taken {
    to: usize,
    written: bool,
}

// The line of a record that only one of the snapshots has.
fn say_alone(stdout: Stdout, rec: &[u8], words: &[u8]) -> bool {
    say(stdout, b"  after the restart: ") && say_subject(stdout, rec) && say(stdout, words)
}

// The line of a record that the other snapshot has otherwise.
fn say_other(stdout: Stdout, rec: &[u8], other: &[u8]) -> bool {
    if rec.len() < 3 {
        return true;
    }
    if other.len() < 3 {
        return true;
    }
    if !say_alone(stdout, rec, b"") {
        return false;
    }
    if key_tag(rec[0]) == 0 {
        return say(stdout, b" is ") && say_subject(stdout, other) && say(stdout, b"\n");
    }
    say(stdout, b" differs in")
        && say_fields(stdout, rec[0], &rec[3..], &other[3..])
        && say(stdout, b"\n")
}

// Says of each record that only the other snapshot has it.
fn say_new(stdout: Stdout, records: &[u8]) -> bool {
    let mut at = 0;
    while at < records.len() {
        let end = end_of(records, at);
        if !say_alone(stdout, &records[at..end], b" is new\n") {
            return false;
        }
        at = end;
    }
    true
}

// Where a record with the key of another one begins, from a place on; the end where there is none.
fn seek_key(records: &[u8], from: usize, rec: &[u8]) -> usize
    requires { from ≤ length records.now }
    ensures { (from ≤ result) × (result ≤ length records.now) }
{
    let mut at = from;
    while at < records.len() {
        let end = end_of(records, at);
        if same_key(&records[at..end], rec) {
            return at;
        }
        at = end;
    }
    at
}

// A record that both snapshots have: the other one's between the last one taken and it are new.
fn with_both(stdout: Stdout, rec: &[u8], other: &[u8], taken: Taken, at: usize) -> Taken
    requires { (taken.to ≤ at) × (at < length other.now) }
    ensures { result.to ≤ length other.now }
{
    let from = taken.to;
    let to = end_of(other, at);
    if !say_new(stdout, &other[from..at]) {
        return Taken { to, written: false };
    }
    if wire::same(rec, &other[at..to]) {
        return Taken { to, written: true };
    }
    let written = say_other(stdout, rec, &other[at..to]);
    Taken { to, written }
}

// A record of the first snapshot.
fn with_record(stdout: Stdout, rec: &[u8], other: &[u8], taken: Taken) -> Taken
    requires { taken.to ≤ length other.now }
    ensures { result.to ≤ length other.now }
{
    let at = seek_key(other, taken.to, rec);
    if other.len() <= at {
        let to = taken.to;
        let written = say_alone(stdout, rec, b" is gone\n");
        return Taken { to, written };
    }
    with_both(stdout, rec, other, taken, at)
}

// Says every difference.
pub fn say_differences(stdout: Stdout, records: &[u8], other: &[u8]) -> bool {
    let mut taken = Taken {
        to: 0,
        written: true,
    };
    let mut at = 0;
    while at < records.len() {
        let end = end_of(records, at);
        taken = with_record(stdout, &records[at..end], other, taken);
        if !taken.written {
            return false;
        }
        at = end;
    }
    let from = taken.to;
    say_new(stdout, &other[from..])
}
