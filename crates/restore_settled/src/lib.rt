// Whether a restore leaves entries as they are: each topic's id names it, and its count and replication factor are those of its partitions. One walk over
// the topics, and one beside it over the partitions.
#![tactic(auto)]

ghost use Rattle.std.specs.Prelude.{◌≡◌, true, ◌&&◌, ◌≤◌, eqb, length};
ghost use Rattle.model.specs.Choice.{every};
ghost use Rattle.model.specs.Number.{number};
ghost use Rattle.model.specs.Run.{value};
ghost use Rattle.model.specs.Map.{ascending};
ghost use Rattle.model.specs.Contents.{record_key};
ghost use Rattle.model.specs.Move.{replicas, node_count};
ghost use Rattle.keys.specs.Keys.{run_in};
ghost use Rattle.entries.specs.Entries.{records_in, Entries};
ghost use Rattle.image_counts.specs.Counts.{Counted};
ghost use Rattle.restore_settled.specs.Settled.{settled_record, Factored, is_no_level};

use entries::{Cursor, Step};
use image_counts::beside;
use keys::{number_at, value_at};
use model::kinds::{FEATURE_LEVEL, TOPIC};
use std::cmp::Ordering;

// How many replicas a partition's record lists: the fourth field, eight bytes a node.
fn replica_count(e: &[u8]) -> u64
    requires { 3 ≤ length e.now }
    ensures { result ≡ node_count (replicas (run_in e.now)) }
{
    let p = value_at(e, 4);
    ((p.end - p.start) / 8) as u64
}

// A topic's partitions: how many, the replica count of the last, and where the entries after them begin.
#[derive(Clone, Copy)]
struct Tally {
    count: u64,
    factor: u64,
    end: usize,
}

// Counts the partitions of a topic. Where there are none, the factor is the given one.
fn tally_of(s: &[u8], name: &[u8], given: u64) -> Tally
    requires { Entries s.now × (ascending record_key (records_in s.now) ≡ true) }
    ensures { Counted s.now name.now result.count result.end × Factored s.now name.now given result.factor result.end }
{
    let mut count: u64 = 0;
    let mut factor = given;
    let mut c = Cursor { at: 0 };
    loop {
        match c.next(s) {
            Step::Entry(start, end, next) => match beside(&s[start..end], name) {
                Ordering::Less => {
                    c = next;
                }
                Ordering::Equal => {
                    c = next;
                    count += 1;
                    factor = replica_count(&s[start..end]);
                }
                Ordering::Greater => {
                    return Tally {
                        count,
                        factor,
                        end: start,
                    };
                }
            },
            Step::Torn => {
                return Tally {
                    count,
                    factor,
                    end: s.len(),
                };
            }
            Step::End => {
                return Tally {
                    count,
                    factor,
                    end: s.len(),
                };
            }
        }
    }
}

// Counts the partitions of the topic that a record is of.
fn tally_for(topic: &[u8], s: &[u8]) -> Tally
    requires { (3 ≤ length topic.now) × (length (value 4 (run_in topic.now)) ≡ 2) × Entries s.now × (ascending record_key (records_in s.now) ≡ true) }
    ensures { Counted s.now (value 1 (run_in topic.now)) result.count result.end × Factored s.now (value 1 (run_in topic.now)) (number (value 4 (run_in topic.now))) result.factor result.end }
{
    let p = value_at(topic, 1);
    let start = p.start;
    let end = p.end;
    tally_of(s, &topic[start..end], number_at(topic, 4, 2))
}

// Whether a topic's flag is set, and its count and factor are these.
fn agrees(topic: &[u8], count: u64, factor: u64) -> bool
    requires { (3 ≤ length topic.now) × (length (value 3 (run_in topic.now)) ≡ 4) × (length (value 4 (run_in topic.now)) ≡ 2) × (length (value 5 (run_in topic.now)) ≡ 5) }
    ensures { result ≡ eqb (number (value 5 (run_in topic.now))) 1 && eqb (number (value 3 (run_in topic.now))) count && eqb (number (value 4 (run_in topic.now))) factor }
{
    if number_at(topic, 5, 5) != 1 {
        return false;
    }
    if number_at(topic, 3, 4) != count {
        return false;
    }
    number_at(topic, 4, 2) == factor
}

// Whether a restore leaves each entry as it is. Topics, which are of kind 1, and partitions ascend by name both, so those of the next topic stand at
// `from` or after it.
pub fn is_settled(s: &[u8]) -> bool
    requires { Entries s.now × (ascending record_key (records_in s.now) ≡ true) }
    ensures { result ≡ every (settled_record (records_in s.now)) (records_in s.now) }
{
    let mut from = 0;
    let mut c = Cursor { at: 0 };
    loop {
        match c.next(s) {
            Step::Entry(start, end, next) => {
                c = next;
                if s[start] != TOPIC {
                    continue;
                }
                let t = tally_for(&s[start..end], &s[from..]);
                if !agrees(&s[start..end], t.count, t.factor) {
                    return false;
                }
                from = from + t.end;
            }
            Step::Torn => {
                return true;
            }
            Step::End => {
                return true;
            }
        }
    }
}

// Whether no entry is a feature level.
pub fn has_no_level(s: &[u8]) -> bool
    requires { Entries s.now }
    ensures { result ≡ every is_no_level (records_in s.now) }
{
    let mut c = Cursor { at: 0 };
    loop {
        match c.next(s) {
            Step::Entry(start, end, next) => {
                c = next;
                if s[start] == FEATURE_LEVEL {
                    return false;
                }
            }
            Step::Torn => {
                return true;
            }
            Step::End => {
                return true;
            }
        }
    }
}
