// Two records side by side: whether they have one key, and in which fields they differ.
ghost use Rattle.std.specs.Prelude.{◌≤◌, length};

use fields::{Cursor, Step};
use model::kinds;
use std::io::Stdout;
use tool_words::names::say_field_name;
use tool_words::parts::part_of;
use tool_words::say;

// The most fields of a kind.
const FIELDS: u8 = 12;

// The last field of a kind's key; keys are the first fields of their records. 0 where there is one record of the kind at most.
pub fn key_tag(kind: u8) -> usize {
    match kind {
        kinds::PARTITION | kinds::BROKER_CONFIG | kinds::CLIENT_QUOTA => 2,
        kinds::PARTITION_OFFSET_ADVANCE | kinds::PARTITION_ELR | kinds::PARTITION_RECOVERY => 2,
        kinds::TOPIC_FREEZE => 2,
        kinds::PRODUCER_IDS | kinds::KRAFT_VERSION => 0,
        kinds::FEATURES_EPOCH | kinds::LOG_OFFSET => 0,
        _ => 1,
    }
}

// Whether two bodies have the same first fields, up to one of a tag.
fn same_beginning(run: &[u8], other: &[u8], tag: usize) -> bool {
    let p = part_of(run, tag);
    let q = part_of(other, tag);
    let at = 0;
    let end = p.end;
    let last = q.end;
    wire::same(&run[at..end], &other[at..last])
}

// Whether two records have one key.
pub fn same_key(rec: &[u8], other: &[u8]) -> bool {
    if rec.len() < 3 {
        return false;
    }
    if other.len() < 3 {
        return false;
    }
    rec[0] == other[0] && same_beginning(&rec[3..], &other[3..], key_tag(rec[0]))
}

// Where the last field of a tag ends, 0 where there is none.
fn last_end(run: &[u8], sought: usize) -> usize
    ensures { result ≤ length run.now }
{
    let mut found = 0;
    let mut c = Cursor {
        at: 0,
        to: run.len(),
    };
    loop {
        match c.next(run) {
            Step::Field {
                tag,
                start: _,
                len: _,
                next,
            } => {
                c = next;
                if tag == sought {
                    found = next.at;
                }
            }
            Step::Torn => {
                return found;
            }
            Step::End => {
                return found;
            }
        }
    }
}

// Whether two bodies have the same values of a tag, which stand together.
fn same_values(run: &[u8], other: &[u8], tag: usize) -> bool {
    let p = part_of(run, tag);
    let q = part_of(other, tag);
    let start = p.start;
    let first = q.start;
    let end = last_end(run, tag);
    let last = last_end(other, tag);
    if end < start {
        return false;
    }
    if last < first {
        return false;
    }
    wire::same(&run[start..end], &other[first..last])
}

// Says a field's name where two bodies of a kind differ in it.
fn say_if_apart(stdout: Stdout, kind: u8, run: &[u8], other: &[u8], tag: u8) -> bool {
    if same_values(run, other, wire::size(tag)) {
        return true;
    }
    say(stdout, b" ") && say_field_name(stdout, kind, tag)
}

// Says the names of the fields in which two bodies of a kind differ.
pub fn say_fields(stdout: Stdout, kind: u8, run: &[u8], other: &[u8]) -> bool {
    let mut tag = 1;
    while tag <= FIELDS {
        if !say_if_apart(stdout, kind, run, other, tag) {
            return false;
        }
        tag += 1;
    }
    true
}
