// Whether empty groups have no member among an image's entries: one walk over both, as each is in the order of its keys.
#![tactic(auto)]

mod members;

ghost use Rattle.std.specs.Prelude.{◌≡◌, true};
ghost use Rattle.model.specs.Choice.{every};
ghost use Rattle.model.specs.Map.{ascending};
ghost use Rattle.model.specs.Contents.{record_key, is_group};
ghost use Rattle.entries.specs.Entries.{records_in, Entries, IsRecord, record_in};
ghost use Rattle.image_groups.specs.Groups.{apart_in, begins_in};

use entries::{Cursor, Step, seek};
pub use members::{leading_end, same_group};

// Whether the first of some entries is of an empty group.
fn begins_in(s: &[u8], g: &[u8]) -> bool
    requires { Entries s.now × IsRecord g.now × (is_group (record_in g.now) ≡ true) }
    ensures { result ≡ begins_in (record_in g.now) (records_in s.now) }
{
    let c = Cursor { at: 0 };
    match c.next(s) {
        Step::Entry(start, end, next) => same_group(&s[start..end], g),
        Step::Torn => false,
        Step::End => false,
    }
}

// Whether no empty group of `t` has a member among the entries `s`. A group's members stand together, from its own place on: the first entry that
// is not below the group's key is one of them, or there is none.
pub fn groups_apart(s: &[u8], t: &[u8]) -> bool
    requires { Entries s.now × Entries t.now × (ascending record_key (records_in s.now) ≡ true) × (ascending record_key (records_in t.now) ≡ true) × (every is_group (records_in t.now) ≡ true) }
    ensures { result ≡ every (apart_in (records_in s.now)) (records_in t.now) }
{
    let mut from = 0;
    let mut c = Cursor { at: 0 };
    loop {
        match c.next(t) {
            Step::Entry(start, end, next) => {
                c = next;
                let p = seek(&s[from..], &t[start..end]);
                from = from + p.at;
                if begins_in(&s[from..], &t[start..end]) {
                    return false;
                }
            }
            Step::Torn => {
                return true;
            }
            Step::End => {
                return true;
            }
        }
    }
}
