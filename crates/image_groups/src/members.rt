// Whether an entry is of an empty group: without its name its key is the group's.
ghost use Rattle.std.specs.Prelude.{◌≡◌, true, ◌≤◌, length, take};
ghost use Rattle.model.specs.Contents.{record_key, is_group, in_group_of};
ghost use Rattle.keys.specs.Keys.{run_in};
ghost use Rattle.entries.specs.Entries.{IsRecord, record_in};
ghost use Rattle.image_groups.specs.Groups.{leading};

use fields::{Cursor, Step};
use keys::compare_keys;
use std::cmp::Ordering;

// Where the fields of tag 1 that a record begins with end: a config's node, a quota's entities.
pub fn leading_end(s: &[u8]) -> usize
    requires { IsRecord s.now }
    ensures { (run_in (take result s.now) ≡ leading (run_in s.now)) × (3 ≤ result) × (result ≤ length s.now) }
{
    let mut c = Cursor { at: 3, to: s.len() };
    loop {
        let at = c.at;
        match c.next(s) {
            Step::Field {
                tag,
                start,
                len,
                next,
            } => {
                if tag != 1 {
                    return at;
                }
                c = next;
            }
            Step::Torn => {
                return at;
            }
            Step::End => {
                return at;
            }
        }
    }
}

// Whether a record is of an empty group. A group's name is empty, so that the record's key without a name is to be the group's.
pub fn same_group(e: &[u8], g: &[u8]) -> bool
    requires { IsRecord e.now × IsRecord g.now × (is_group (record_in g.now) ≡ true) }
    ensures { result ≡ in_group_of (record_in g.now) (record_key (record_in e.now)) }
{
    if e[0] != g[0] {
        return false;
    }
    let n = leading_end(e);
    match compare_keys(&e[..n], g) {
        Ordering::Less => false,
        Ordering::Equal => true,
        Ordering::Greater => false,
    }
}
