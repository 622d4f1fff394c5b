// What a record's step says, in words.
use model::refusals::{OVER_A_LIMIT, PAST_THE_END, REPEATED};
use std::io::Stdout;
use steps::Said;
use tool_subjects::{say_subject, say_unread};
use tool_words::names::say_verdict;
use tool_words::{say, say_number};
use wire::wide;

// A number and its words.
pub fn say_in_words(stdout: Stdout, number: u8) -> bool {
    say_number(stdout, wide(number)) && say(stdout, b", ") && say_verdict(stdout, number)
}

// What a step said: Validate's refusal, or what Apply said.
fn say_said(stdout: Stdout, said: Said) -> bool {
    if said.validate != 0 {
        return say_in_words(stdout, said.validate);
    }
    say_in_words(stdout, said.apply)
}

// Whether a refusal is Read's: then a record's fields are not to be had.
fn is_unread(number: u8) -> bool {
    (PAST_THE_END <= number && number <= OVER_A_LIMIT) || number == REPEATED
}

// What a record is about.
fn say_about(stdout: Stdout, rec: &[u8], said: Said) -> bool {
    if rec.len() == 0 {
        return true;
    }
    if is_unread(said.validate) {
        return say_unread(stdout, rec[0]);
    }
    say_subject(stdout, rec)
}

// The line of a record: its place, what it is about, and what was said.
pub fn say_record(stdout: Stdout, place: u64, rec: &[u8], said: Said) -> bool {
    say_number(stdout, place)
        && say(stdout, b" ")
        && say_about(stdout, rec, said)
        && say(stdout, b": ")
        && say_said(stdout, said)
        && say(stdout, b"\n")
}

// Another verdict than without the restarts.
pub fn say_change(stdout: Stdout, said: Said) -> bool {
    say(stdout, b"  after the restart: ") && say_said(stdout, said) && say(stdout, b"\n")
}

pub fn is_same(one: Said, other: Said) -> bool {
    one.validate == other.validate && one.apply == other.apply
}
