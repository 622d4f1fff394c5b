// A file's records through a window, to its end.
ghost use Rattle.std.specs.Prelude.{◌-◌, ◌≤◌, length};

use crate::turns::{Course, MOST, fresh, turn};
use crate::verdicts::say_in_words;
use model::refusals::PAST_THE_END;
use std::io::{Read, Stdout};
use tool_arguments::Cuts;
use tool_source::{Source, passed, print_progress, refill, start};
use tool_words::{say, say_number};

// How many bytes the record at the start of some bytes has by its header, 0 where it runs past them.
fn size_of(bytes: &[u8]) -> usize
    ensures { result ≤ length bytes.now }
{
    if bytes.len() < 3 {
        return 0;
    }
    let size = wire::get(bytes, 1, 2) as usize + 3;
    if bytes.len() < size {
        return 0;
    }
    size
}

// Says that bytes are left that no record's header covers.
fn say_torn(stdout: Stdout, place: u64) -> bool {
    say_number(stdout, place)
        && say(stdout, b" no record: ")
        && say_in_words(stdout, PAST_THE_END)
        && say(stdout, b"\n")
}

// The file's end, or where it could not be read further.
fn ended(stdout: Stdout, course: Course, source: Source) -> Course {
    let mut next = course;
    next.failed = source.failed;
    if source.at < source.end {
        next.written = say_torn(stdout, source.place);
    }
    next
}

// How many records may still come. A write that failed ends a run, and nothing more is said.
fn left(course: Course) -> u64
    ensures { result ≤ 9223372036854775807 - course.records }
{
    if !course.written {
        return 0;
    }
    if MOST <= course.records {
        return 0;
    }
    MOST - course.records
}

// Says how far the reading is, while something can be said.
fn say_progress(course: Course, place: u64) {
    if course.written {
        print_progress(course.records, place);
    }
}

// Reads the whole file through a window. A proved loop has to end, and nothing says that a file does: the records end at a number that no run comes to.
fn run_in<R: Read>(
    stdout: Stdout,
    file: &mut R,
    window: &mut [u8],
    plain: &mut [u8],
    other: &mut [u8],
    cuts: Cuts,
) -> Course
    requires { length window.old ≤ 262144 }
{
    let mut source = start();
    let mut course = fresh();
    while 0 < left(course) {
        source = refill(file, window, source);
        let at = source.at;
        let end = source.end;
        let n = size_of(&window[at..end]);
        if n == 0 {
            return ended(stdout, course, source);
        }
        let next = at + n;
        course = turn(
            stdout,
            plain,
            other,
            source.place,
            &window[at..next],
            cuts,
            course,
        );
        source = passed(source, n);
        say_progress(course, source.place);
    }
    course
}

// Reads the whole file.
pub fn run<R: Read>(
    stdout: Stdout,
    file: &mut R,
    plain: &mut [u8],
    other: &mut [u8],
    cuts: Cuts,
) -> Course {
    let mut window = [0u8; 262144];
    run_in(stdout, file, &mut window, plain, other, cuts)
}
