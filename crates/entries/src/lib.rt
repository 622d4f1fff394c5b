// Entries: a sorted map of encoded records in a part of a lent buffer.
#![tactic(auto)]

mod topics;

ghost use Rattle.std.specs.Prelude.{◌≡◌, ◌++◌, ◌+◌, ◌-◌, ◌≤◌, length, take};
ghost use Rattle.std.proofs.Math.Seq.{slice};
ghost use Rattle.model.specs.Map.{put as put_in, remove as remove_in};
ghost use Rattle.model.specs.Contents.{record_key};
ghost use Rattle.keys.specs.Keys.{key_in, Keyed};
ghost use Rattle.entries.specs.Entries.{records_in, Entries, step_at, Placed, IsRecord, record_in, Changed};

use keys::compare_keys;
use std::cmp::Ordering;
pub use topics::remove_topic;

// Where the next entry begins.
#[derive(Clone, Copy)]
pub struct Cursor {
    pub at: usize,
}

// What stands at a cursor.
#[derive(Clone, Copy)]
pub enum Step {
    // An entry: where it begins and ends, and the cursor after it.
    Entry(usize, usize, Cursor),
    // Bytes that are no whole entry.
    Torn,
    // Nothing.
    End,
}

impl Cursor {
    pub fn next(self, s: &[u8]) -> Step
        ensures { result ≡ step_at s.now self.at }
    {
        let at = self.at;
        if s.len() <= at {
            return Step::End;
        }
        let left = s.len() - at;
        if left < 3 {
            return Step::Torn;
        }
        let len = 3 + wire::get16(s, at + 1);
        if left < len {
            return Step::Torn;
        }
        let end = at + len;
        Step::Entry(at, end, Cursor { at: end })
    }
}

// Where an entry of a key stands, or would stand.
#[derive(Clone, Copy)]
pub struct Place {
    pub at: usize,
    pub end: usize,
}

// The place of a probe's key among entries: a probe is a record, or as much of one as its key needs.
pub fn seek(s: &[u8], probe: &[u8]) -> Place
    requires { Entries s.now × Keyed probe.now }
    ensures { Placed s.now (key_in probe.now) result.at result.end }
{
    let mut c = Cursor { at: 0 };
    loop {
        match c.next(s) {
            Step::Entry(start, end, next) => match compare_keys(&s[start..end], probe) {
                Ordering::Less => {
                    c = next;
                }
                Ordering::Equal => {
                    return Place { at: start, end };
                }
                Ordering::Greater => {
                    return Place {
                        at: start,
                        end: start,
                    };
                }
            },
            Step::Torn => {
                return Place {
                    at: s.len(),
                    end: s.len(),
                };
            }
            Step::End => {
                return Place {
                    at: s.len(),
                    end: s.len(),
                };
            }
        }
    }
}

// Puts `rec` in the place of the bytes from `at` to `end` of the used ones. How many are used then.
pub fn splice(w: &mut [u8], used: usize, at: usize, end: usize, rec: &[u8]) -> usize
    requires { (at ≤ end) × (end ≤ used) × (used ≤ length w.old) × (at + length rec.now + (used - end) ≤ length w.old) }
    ensures { (result ≡ at + length rec.now + (used - end)) × (take result w.new ≡ take at w.old ++ rec.now ++ slice end used w.old) }
{
    let n = used - end;
    let to = at + rec.len();
    wire::shift(w, end, to, n);
    wire::copy(w, at, rec);
    to + n
}

// Puts a record among the entries from `from` to `to` of the used bytes. How many are used then.
pub fn put(w: &mut [u8], from: usize, to: usize, used: usize, rec: &[u8]) -> usize
    requires { (from ≤ to) × (to ≤ used) × (used + length rec.now ≤ length w.old) × Entries (slice from to w.old) × IsRecord rec.now }
    ensures { Changed w.old w.new from to used result (put_in record_key (record_in rec.now) (records_in (slice from to w.old))) × (result ≤ used + length rec.now) }
{
    let p = seek(&w[from..to], rec);
    let at = from + p.at;
    let end = from + p.end;
    splice(w, used, at, end, rec)
}

// Takes the entry of a probe's key out of the entries from `from` to `to` of the used bytes. How many are used then.
pub fn remove(w: &mut [u8], from: usize, to: usize, used: usize, probe: &[u8]) -> usize
    requires { (from ≤ to) × (to ≤ used) × (used ≤ length w.old) × Entries (slice from to w.old) × Keyed probe.now }
    ensures { Changed w.old w.new from to used result (remove_in record_key (key_in probe.now) (records_in (slice from to w.old))) × (result ≤ used) }
{
    let p = seek(&w[from..to], probe);
    let at = from + p.at;
    let end = from + p.end;
    splice(w, used, at, end, &probe[..0])
}
