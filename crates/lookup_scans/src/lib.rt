// Walks over an image's real entries, for lookups: the short partitions, and the topic that the id index names for an id.
#![tactic(auto)]

ghost use Rattle.std.specs.Prelude.{◌≡◌, map};
ghost use Rattle.model.specs.Image.{entry_of};
ghost use Rattle.model.specs.Snapshot.{emit};
ghost use Rattle.model.specs.Lookup.{found, named_by, is_short, short_count};
ghost use Rattle.model.specs.Answers.{replied};
ghost use Rattle.entries.specs.Entries.{records_in, Entries, IsRecord, record_in};
ghost use Rattle.find.specs.Found.{AllKept};
ghost use Rattle.lookup_scans.specs.Scans.{NamedAt};

use entries::{Cursor, Place, Step};
use find::emit_place;
use image_ids::names;
use keys::value_at;
use model::answers::Answer;
use model::kinds::PARTITION;
use nodes::outside_in;

// Whether an entry is a partition whose ISR is smaller than the number of its replicas that are not being added. Partitions are of kind 2; the
// fourth field lists the replicas, the fifth the ISR and the seventh the adding replicas, eight bytes a node.
fn is_short(e: &[u8]) -> bool
    requires { IsRecord e.now }
    ensures { result ≡ is_short (entry_of (record_in e.now)) }
{
    if e[0] != PARTITION {
        return false;
    }
    let replicas = value_at(e, 4);
    let isr = value_at(e, 5);
    let adding = value_at(e, 7);
    let first = replicas.start;
    let last = replicas.end;
    let from = adding.start;
    let to = adding.end;
    (isr.end - isr.start) / 8 < outside_in(&e[first..last], &e[from..to])
}

// How many partitions are short.
pub fn short_in(s: &[u8]) -> u64
    requires { Entries s.now }
    ensures { result ≡ short_count (map entry_of (records_in s.now)) }
{
    let mut c = Cursor { at: 0 };
    let mut n: u64 = 0;
    loop {
        match c.next(s) {
            Step::Entry(start, end, next) => {
                c = next;
                if is_short(&s[start..end]) {
                    n = n + 1;
                    continue;
                }
            }
            Step::Torn => {
                return n;
            }
            Step::End => {
                return n;
            }
        }
    }
}

// The place of the first topic that is named for an id; an empty one where there is none.
fn find_id(s: &[u8], id: &[u8]) -> Place
    requires { Entries s.now }
    ensures { NamedAt s.now id.now result.at result.end }
{
    let mut c = Cursor { at: 0 };
    loop {
        match c.next(s) {
            Step::Entry(start, end, next) => {
                c = next;
                if names(&s[start..end], id) {
                    return Place { at: start, end };
                }
            }
            Step::Torn => {
                return Place { at: 0, end: 0 };
            }
            Step::End => {
                return Place { at: 0, end: 0 };
            }
        }
    }
}

// Writes the record of the topic that is named for an id to the start of an output. The bytes written, none where there is no such topic; or 19
// and nothing is written.
pub fn emit_named(s: &[u8], id: &[u8], out: &mut [u8]) -> Answer
    requires { Entries s.now × AllKept (records_in s.now) }
    ensures result_value { replied result ≡ (emit (found (named_by id.now (map entry_of (records_in s.now)))) out.old).reply }
    ensures out_after { out.new ≡ (emit (found (named_by id.now (map entry_of (records_in s.now)))) out.old).buffer }
{
    let p = find_id(s, id);
    emit_place(s, p.at, p.end, out)
}
