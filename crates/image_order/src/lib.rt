// Whether bytes are an image's entries: stored records back to back, in the order of their keys.
#![tactic(auto)]

ghost use Rattle.std.specs.Prelude.{◌≡◌};
ghost use Rattle.model.specs.Shape.{stored};
ghost use Rattle.model.specs.Items.{items_of, is_whole};
ghost use Rattle.model.specs.Map.{ascending};
ghost use Rattle.model.specs.Contents.{record_key};
ghost use Rattle.shapes.specs.Table.{table};
ghost use Rattle.entries.specs.Entries.{records_in, Entries};

use entries::{Cursor, Step};
use keys::compare_keys;
use model::answers::Answer;
use records::{Source, read_from};
use std::cmp::Ordering;

// Whether all bytes read as stored records, one after the other, by the table that is lent.
pub fn all_read(rows: &[u32], s: &[u8]) -> bool
    requires { rows.now ≡ table }
    ensures { result ≡ is_whole (items_of stored s.now) }
{
    let mut at = 0;
    while at < s.len() {
        match read_from(rows, &s[at..], Source::Stored) {
            Answer::Used(n) => {
                at = at + n;
            }
            Answer::Refused(_) => {
                return false;
            }
        }
    }
    true
}

// Whether each entry's key is below the next one's.
pub fn ascends(s: &[u8]) -> bool
    requires { Entries s.now }
    ensures { result ≡ ascending record_key (records_in s.now) }
{
    let mut prev = 0;
    let mut c = Cursor { at: 0 };
    loop {
        match c.next(s) {
            Step::Entry(start, end, next) => {
                c = next;
                // The first entry has none before it.
                if prev == start {
                    continue;
                }
                match compare_keys(&s[prev..start], &s[start..end]) {
                    Ordering::Less => {
                        prev = start;
                    }
                    Ordering::Equal => {
                        return false;
                    }
                    Ordering::Greater => {
                        return false;
                    }
                }
            }
            Step::Torn => {
                return true;
            }
            Step::End => {
                return true;
            }
        }
    }
}
