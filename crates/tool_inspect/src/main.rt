// Reads a file of records, gives each to Validate and, where that says 0, to Apply, and says what then exists. It can restart the image on the way, and
// says whether that changed a later answer.
//
//     inspect [FILE] [cut N | cut all] [at CAPACITY]
//     inspect help
#![tactic(auto)]

use std::fs::File;
use std::io::{Error, ErrorKind, Read, Stdout};
use tool_arguments::{Cuts, NOTHING_WRONG, Options, read_options, say_fault};
use tool_course::run::run;
use tool_course::turns::Course;
use tool_parting::ids::renamed;
use tool_report::exists::{say_all, say_log_offset};
use tool_words::{complain, fail, say, say_of};

// What the restarts changed: of verdicts, of snapshots, and of what the ids name at the end.
fn say_changes(stdout: Stdout, course: Course, ids: u64) -> bool {
    if course.restarts == 0 {
        return say(
            stdout,
            b"There was no restart: the file has fewer records.\n",
        );
    }
    if !say_of(stdout, b"restarts: ", course.restarts) {
        return false;
    }
    if course.verdicts == 0 && course.snapshots == 0 && ids == 0 {
        return say(stdout, b"; no later answer changed\n");
    }
    say_of(stdout, b"; changed: verdicts ", course.verdicts)
        && say_of(stdout, b", snapshots ", course.snapshots)
        && say_of(stdout, b", topics by id ", ids)
        && say(stdout, b"\n")
}

// What exists after the history, what the restarts changed, where some were asked for, and how far it got.
fn say_end(stdout: Stdout, course: Course, plain: &[u8], cut: &[u8], cuts: Cuts) -> bool {
    let mut out = io::large_buffer();
    if !say_of(stdout, b"records: ", course.records) || !say(stdout, b"\n") {
        return false;
    }
    if !say_all(stdout, plain, &mut out) {
        return false;
    }
    if !cuts.any {
        return say_log_offset(stdout, plain);
    }
    let ids = renamed(stdout, plain, cut, &mut out);
    ids.written && say_changes(stdout, course, ids.count) && say_log_offset(stdout, plain)
}

// The history on two fresh images, one of them with the restarts. Why the file could not be read, if so: nothing is said to exist where it could not.
fn inspect<R: Read>(
    stdout: Stdout,
    file: &mut R,
    plain: &mut [u8],
    cut: &mut [u8],
    cuts: Cuts,
) -> Option<Error> {
    if header::open(plain) != 0 {
        complain(b"a capacity is from 144 to 65536");
        return None;
    }
    header::open(cut);
    let course = run(stdout, file, plain, cut, cuts);
    if course.failed.is_none() && course.written {
        say_end(stdout, course, plain, cut, cuts);
    }
    course.failed
}

// Two images of a capacity, in buffers of the greatest one. Why the file could not be read, if so.
fn inspect_at<R: Read>(
    stdout: Stdout,
    file: &mut R,
    plain: &mut [u8],
    cut: &mut [u8],
    capacity: usize,
    cuts: Cuts,
) -> Option<Error> {
    if plain.len() < capacity {
        complain(b"a capacity is from 144 to 65536");
        return None;
    }
    if cut.len() < capacity {
        return None;
    }
    inspect(
        stdout,
        file,
        &mut plain[..capacity],
        &mut cut[..capacity],
        cuts,
    )
}

// Inspects an open file, or says why it cannot be read.
fn inspect_open<R: Read>(stdout: Stdout, file: &mut R, path: &[u8], options: Options) {
    let mut plain = io::large_buffer();
    let mut cut = io::large_buffer();
    let cuts = options.cuts;
    if let Some(error) = inspect_at(
        stdout,
        file,
        &mut plain,
        &mut cut,
        options.capacity as usize,
        cuts,
    ) {
        fail(path, error);
    }
}

// Opens a file, whose name is text.
fn open(rt: &HostRuntime, path: &[u8]) -> Result<File, Error> {
    match str::from_utf8(path) {
        Ok(name) => File::open(rt, name),
        Err(_) => Err(Error::new(
            ErrorKind::InvalidFilename,
            "the name is not UTF-8: '-' reads standard input",
        )),
    }
}

// Opens a file and inspects it, or says why it cannot be read. `-` is standard input.
fn inspect_path(rt: &HostRuntime, path: &[u8], options: Options) {
    if wire::same(path, b"-") {
        inspect_open(rt.stdout(), &mut rt.stdin(), b"standard input", options);
        return;
    }
    match open(rt, path) {
        Ok(mut file) => inspect_open(rt.stdout(), &mut file, path, options),
        Err(error) => fail(path, error),
    }
}

// What there is to ask.
fn say_help(stdout: Stdout) -> bool {
    say(
        stdout,
        b"inspect [FILE] [cut N | cut all] [at CAPACITY]\n\
        \n\
        Reads a file of records, gives each to Validate and, where that says 0, to Apply, and says what then exists.\n\
        \n\
        FILE         the records; '-' is standard input, and none is plan.records\n\
        cut N        restarts the image behind N records, and says what that changes\n\
        cut all      restarts it behind each record\n\
        at CAPACITY  an image of so many bytes, from 144 to 65536; without it 65536\n\
        help         these lines\n\
        \n\
        For example: inspect plan.records cut 12 at 4096\n",
    )
}

fn main(rt: HostRuntime) {
    let mut path = io::buffer();
    let options = read_options(&rt, &mut path);
    if options.help {
        say_help(rt.stdout());
        return;
    }
    if options.fault != NOTHING_WRONG {
        say_fault(options.fault);
        complain(
            b"'inspect help' says what there is; for example: inspect plan.records cut 12 at 4096",
        );
        return;
    }
    let length = options.length;
    if length == 0 {
        inspect_path(&rt, b"plan.records", options);
        return;
    }
    if length <= path.len() {
        inspect_path(&rt, &path[..length], options);
    }
}
