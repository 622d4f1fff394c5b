// Restore: the image of some records, from nothing. The first one is the log offset.
#![tactic(auto)]

ghost use Rattle.std.specs.Prelude.{◌≡◌, true, ◌≤◌, length};
ghost use Rattle.model.specs.Image.{is_capacity, image_of};
ghost use Rattle.model.specs.Snapshot.{restore_of};
ghost use Rattle.apply_drafts.specs.Drafts.{draft_room};
ghost use Rattle.apply_step.specs.Step.{work_room, Holding};
ghost use Rattle.model.specs.Answers.{restore_reply};
ghost use Rattle.restore.specs.Restore.{fresh_at, BegunAs, InsideAs, NextIs, Reached, RanAs, Whole, whole_contents};

use apply_step::step;
use apply_work::{Bounds, State, Tried, lay};
use header::{NO_EPOCH, NO_OFFSET, is_capacity};
use keys::number_at;
use model::answers::{Answer, Restored};
use model::kinds::LOG_OFFSET;
use model::refusals::{MISPLACED_OFFSET, NO_IMAGE};
use records::read;
use restore_copy::rebuild;

// The log offset that some records start with, and how many bytes its record has; or a refusal of the first record.
#[derive(Clone, Copy)]
enum Begun {
    At(u64, usize),
    Refused(u8),
}

// Reads the log offset at the start of some records: 22 where there is none.
fn begin(input: &[u8]) -> Begun
    ensures { BegunAs input.now result }
{
    if input.len() == 0 {
        return Begun::Refused(MISPLACED_OFFSET);
    }
    match read(input) {
        Answer::Refused(number) => Begun::Refused(number),
        Answer::Used(n) => {
            if input[0] != LOG_OFFSET {
                return Begun::Refused(MISPLACED_OFFSET);
            }
            Begun::At(number_at(&input[..n], 1, 8), n)
        }
    }
}

// Reads a record behind the first one: 22 where it is a log offset.
fn read_inside(input: &[u8]) -> Answer
    ensures { InsideAs input.now result }
{
    match read(input) {
        Answer::Refused(number) => Answer::Refused(number),
        Answer::Used(n) => {
            if input[0] == LOG_OFFSET {
                return Answer::Refused(MISPLACED_OFFSET);
            }
            Answer::Used(n)
        }
    }
}

// The state of no records, at a log offset.
fn no_records(offset: u64) -> State
    ensures { result ≡ fresh_at offset }
{
    State {
        bounds: Bounds { mid: 0, used: 0 },
        epoch: NO_EPOCH,
        kraft: 0,
        offset,
    }
}

// What the first of some records comes to: the state after it and how many bytes it has; Read's refusal, which leaves the work array as it was; or
// Apply's.
#[derive(Clone, Copy)]
enum Next {
    Moved(State, usize),
    Unread(u8),
    Refused(u8),
}

// Applies the first record of an input, which stands behind the log offset.
fn next_record(
    w: &mut [u8],
    a: &mut [u8],
    b: &mut [u8],
    state: State,
    capacity: usize,
    input: &[u8],
) -> Next
    requires { Holding w.old state capacity × (length w.old ≡ work_room) × (draft_room ≤ length a.old) × (draft_room ≤ length b.old) }
    ensures { NextIs w.old state capacity input.now w.new result }
{
    match read_inside(input) {
        Answer::Refused(number) => Next::Unread(number),
        Answer::Used(n) => match step(w, a, b, state, capacity, &input[..n]) {
            Tried::Refused(number) => Next::Refused(number),
            Tried::Moved(s) => Next::Moved(s, n),
        },
    }
}

// What a run over records comes to: the state after all; the place that Read refuses, and the state before it; or the place that Apply refuses, after
// which the work array is of no use.
#[derive(Clone, Copy)]
enum Ran {
    Done(State),
    Unread(u8, usize, State),
    Refused(u8, usize),
}

// Applies the records from a place on to what those before it make, up to the end or to the first refusal.
fn run_from(
    w: &mut [u8],
    a: &mut [u8],
    b: &mut [u8],
    capacity: usize,
    begun: State,
    start: usize,
    input: &[u8],
) -> Ran
    requires { Reached capacity input.now start w.old begun × (length w.old ≡ work_room) × (draft_room ≤ length a.old) × (draft_room ≤ length b.old) }
    ensures { RanAs capacity input.now w.new result }
{
    let mut state = begun;
    let mut at = start;
    while at < input.len() {
        match next_record(w, a, b, state, capacity, &input[at..]) {
            Next::Moved(s, n) => {
                state = s;
                at = at + n;
            }
            Next::Unread(number) => {
                return Ran::Unread(number, at, state);
            }
            Next::Refused(number) => {
                return Ran::Refused(number, at);
            }
        }
    }
    Ran::Done(state)
}

// Applies records to a fresh state at the log offset that they start with, up to the end or to the first refusal.
fn run(w: &mut [u8], a: &mut [u8], b: &mut [u8], capacity: usize, input: &[u8]) -> Ran
    requires { (is_capacity capacity ≡ true) × (length w.old ≡ work_room) × (draft_room ≤ length a.old) × (draft_room ≤ length b.old) }
    ensures { RanAs capacity input.now w.new result }
{
    match begin(input) {
        Begun::Refused(number) => Ran::Unread(number, 0, no_records(NO_OFFSET)),
        Begun::At(offset, n) => run_from(w, a, b, capacity, no_records(offset), n, input),
    }
}

// Lays out the image of records that are all applied: a run over them has no other end.
fn lay_whole(image: &mut [u8], w: &mut [u8], a: &mut [u8], b: &mut [u8], input: &[u8])
    requires { Whole (length image.old) input.now × (is_capacity (length image.old) ≡ true) × (length w.old ≡ work_room) × (draft_room ≤ length a.old) × (draft_room ≤ length b.old) }
    ensures { image.new ≡ image_of (length image.old) (whole_contents (length image.old) input.now) }
{
    match run(w, a, b, image.len(), input) {
        Ran::Done(s) => {
            lay(image, w, s.bounds, s.epoch, s.kraft, s.offset);
        }
        Ran::Unread(number, at, s) => {}
        Ran::Refused(number, at) => {}
    }
}

// Restore, record by record.
fn restore_each(image: &mut [u8], w: &mut [u8], input: &[u8]) -> Restored
    requires { (is_capacity (length image.old) ≡ true) × (length w.old ≡ work_room) }
    ensures result_value { restore_reply result ≡ (restore_of input.now image.old).reply }
    ensures image_after { image.new ≡ (restore_of input.now image.old).buffer }
{
    let mut a = [0; 40960];
    let mut b = [0; 40960];
    match run(w, &mut a, &mut b, image.len(), input) {
        Ran::Done(s) => {
            lay(image, w, s.bounds, s.epoch, s.kraft, s.offset);
            Restored::Done
        }
        Ran::Unread(number, at, s) => {
            lay(image, w, s.bounds, s.epoch, s.kraft, s.offset);
            Restored::Stopped(number, at)
        }
        Ran::Refused(number, at) => {
            lay_whole(image, w, &mut a, &mut b, &input[..at]);
            Restored::Stopped(number, at)
        }
    }
}

// Makes a buffer the image of some records, whatever it held. A record's refusal leaves the image of those before it; a capacity's changes nothing. What is
// the snapshot of an image that a restore leaves as it is, as most are, is copied.
pub fn restore(image: &mut [u8], input: &[u8]) -> Restored
    ensures result_value { restore_reply result ≡ (restore_of input.now image.old).reply }
    ensures image_after { image.new ≡ (restore_of input.now image.old).buffer }
{
    if !is_capacity(image.len()) {
        return Restored::Refused(NO_IMAGE);
    }
    let mut w = [0; 167936];
    if rebuild(image, &mut w, input) {
        return Restored::Done;
    }
    restore_each(image, &mut w, input)
}
