// Topics' counts: each at most its partitions' number, in one walk over the topics and one beside it over the partitions.
#![tactic(auto)]

ghost use Rattle.std.specs.Prelude.{◌≡◌, true, ◌≤◌, length};
ghost use Rattle.model.specs.Choice.{every};
ghost use Rattle.model.specs.Order.{ordering};
ghost use Rattle.model.specs.Run.{value};
ghost use Rattle.model.specs.Map.{ascending};
ghost use Rattle.model.specs.Contents.{record_key};
ghost use Rattle.keys.specs.Keys.{run_in, key_in, Keyed};
ghost use Rattle.entries.specs.Entries.{records_in, Entries};
ghost use Rattle.image_counts.specs.Counts.{count_fits, beside_topic, Counted};

use entries::{Cursor, Step};
use keys::{number_at, rank_of, value_at};
use model::kinds::TOPIC;
use std::cmp::Ordering;

// How an entry stands to the partitions of a topic: before them, among them or after them. Partitions have the rank 5.
pub fn beside(e: &[u8], name: &[u8]) -> Ordering
    requires { Keyed e.now }
    ensures { ordering result ≡ beside_topic name.now (key_in e.now) }
{
    let rank = rank_of(e[0]);
    if rank < 5 {
        return Ordering::Less;
    }
    if 5 < rank {
        return Ordering::Greater;
    }
    let p = value_at(e, 1);
    let start = p.start;
    let end = p.end;
    wire::compare(&e[start..end], name)
}

// A topic's partitions: how many, and where the entries after them begin.
#[derive(Clone, Copy)]
struct Tally {
    count: u64,
    end: usize,
}

// Counts the partitions of a topic.
fn count_of(s: &[u8], name: &[u8]) -> Tally
    requires { Entries s.now × (ascending record_key (records_in s.now) ≡ true) }
    ensures { Counted s.now name.now result.count result.end }
{
    let mut count: u64 = 0;
    let mut c = Cursor { at: 0 };
    loop {
        match c.next(s) {
            Step::Entry(start, end, next) => match beside(&s[start..end], name) {
                Ordering::Less => {
                    c = next;
                }
                Ordering::Equal => {
                    c = next;
                    count += 1;
                }
                Ordering::Greater => {
                    return Tally { count, end: start };
                }
            },
            Step::Torn => {
                return Tally {
                    count,
                    end: s.len(),
                };
            }
            Step::End => {
                return Tally {
                    count,
                    end: s.len(),
                };
            }
        }
    }
}

// Counts the partitions of the topic that a record is of.
fn count_for(topic: &[u8], s: &[u8]) -> Tally
    requires { (3 ≤ length topic.now) × Entries s.now × (ascending record_key (records_in s.now) ≡ true) }
    ensures { Counted s.now (value 1 (run_in topic.now)) result.count result.end }
{
    let p = value_at(topic, 1);
    let start = p.start;
    let end = p.end;
    count_of(s, &topic[start..end])
}

// Whether each topic's count is at most its partitions' number. Topics, which are of kind 1, and partitions ascend by name both, so those of
// the next topic stand at `from` or after it.
pub fn counts_fit(s: &[u8]) -> bool
    requires { Entries s.now × (ascending record_key (records_in s.now) ≡ true) }
    ensures { result ≡ every (count_fits (records_in s.now)) (records_in s.now) }
{
    let mut from = 0;
    let mut c = Cursor { at: 0 };
    loop {
        match c.next(s) {
            Step::Entry(start, end, next) => {
                c = next;
                if s[start] != TOPIC {
                    continue;
                }
                let n = count_for(&s[start..end], &s[from..]);
                if n.count < number_at(&s[start..end], 3, 4) {
                    return false;
                }
                from = from + n.end;
            }
            Step::Torn => {
                return true;
            }
            Step::End => {
                return true;
            }
        }
    }
}
