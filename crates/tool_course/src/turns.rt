// One record of a history, and what was seen of the records so far.
ghost use Rattle.std.specs.Prelude.{◌≡◌, ◌+◌, ◌<◌};

use crate::verdicts::{is_same, say_change, say_record};
use std::io::{Error, Stdout};
use steps::{Said, cut, give};
use tool_arguments::Cuts;
use tool_parting::snapshots::same_snapshots;
use tool_words::say;

// No file has so many records.
pub const MOST: u64 = 0x7fff_ffff_ffff_ffff;

// How many records and restarts there were, and what the restarts changed: verdicts, and the snapshot behind a record. `failed`: why a read of
// the file failed, if one did. `written`: no write of what was said did, behind which nothing more is done.
#[derive(Clone, Copy)]
pub struct Course {
    pub records: u64,
    pub restarts: u64,
    pub verdicts: u64,
    pub snapshots: u64,
    pub failed: Option<Error>,
    pub written: bool,
}

// Before the first record.
pub fn fresh() -> Course
    ensures { result.records ≡ 0 }
{
    Course {
        records: 0,
        restarts: 0,
        verdicts: 0,
        snapshots: 0,
        failed: None,
        written: true,
    }
}

fn more_by_one(n: u64) -> u64 {
    if MOST <= n {
        return n;
    }
    n + 1
}

// One more record, whose line was said.
fn counted(course: Course, written: bool) -> Course
    requires { course.records < 9223372036854775807 }
    ensures { result.records ≡ course.records + 1 }
{
    let mut next = course;
    next.records = course.records + 1;
    next.written = written;
    next
}

// One more verdict that the restarts changed.
fn changed(stdout: Stdout, course: Course, after: Said) -> Course
    ensures { result.records ≡ course.records }
{
    let mut next = course;
    next.verdicts = more_by_one(course.verdicts);
    next.written = say_change(stdout, after);
    next
}

// Gives the record to the other image, where a restart is asked for.
fn with_verdict(
    stdout: Stdout,
    other: &mut [u8],
    offset: u64,
    rec: &[u8],
    said: Said,
    cuts: Cuts,
    course: Course,
) -> Course
    ensures { result.records ≡ course.records }
{
    if !course.written || !cuts.any {
        return course;
    }
    let after = give(other, offset, rec);
    if is_same(said, after) {
        return course;
    }
    changed(stdout, course, after)
}

// A restart behind the last record, or that there was no image.
fn restarted(stdout: Stdout, course: Course, made: bool) -> Course
    ensures { result.records ≡ course.records }
{
    let mut next = course;
    if !made {
        next.written = say(stdout, b"  no restart: there is no image\n");
        return next;
    }
    next.restarts = more_by_one(course.restarts);
    next.written = say(stdout, b"  restart\n");
    next
}

fn is_due(course: Course, cuts: Cuts) -> bool {
    course.written && cuts.any && (cuts.each || course.records == cuts.after)
}

// Restarts the second image where that is due.
fn with_restart(stdout: Stdout, other: &mut [u8], cuts: Cuts, course: Course) -> Course
    ensures { result.records ≡ course.records }
{
    if !is_due(course, cuts) {
        return course;
    }
    let mut out = io::large_buffer();
    restarted(stdout, course, cut(other, &mut out))
}

// What comparing the snapshots gave.
fn compared(course: Course, same: bool, written: bool) -> Course
    ensures { result.records ≡ course.records }
{
    let mut next = course;
    next.written = written;
    if !same {
        next.snapshots = more_by_one(course.snapshots);
    }
    next
}

// Compares the snapshots, once there was a restart.
fn with_snapshots(stdout: Stdout, plain: &[u8], other: &[u8], course: Course) -> Course
    ensures { result.records ≡ course.records }
{
    if !course.written || course.restarts == 0 {
        return course;
    }
    let mut out = io::large_buffer();
    let mut more = io::large_buffer();
    let answer = same_snapshots(stdout, plain, other, &mut out, &mut more);
    compared(course, answer.same, answer.written)
}

// One record: its verdicts, the restart behind it, and the snapshots once there was one. Its log offset is the number of records before it,
// refused or not.
pub fn turn(
    stdout: Stdout,
    plain: &mut [u8],
    other: &mut [u8],
    place: u64,
    rec: &[u8],
    cuts: Cuts,
    course: Course,
) -> Course
    requires { course.records < 9223372036854775807 }
    ensures { result.records ≡ course.records + 1 }
{
    let offset = course.records;
    let said = give(plain, offset, rec);
    let first = counted(course, say_record(stdout, place, rec, said));
    let second = with_verdict(stdout, other, offset, rec, said, cuts, first);
    let third = with_restart(stdout, other, cuts, second);
    with_snapshots(stdout, plain, other, third)
}
