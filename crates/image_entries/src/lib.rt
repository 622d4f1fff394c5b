// What the exact image test asks of each entry by itself, straight from the entries' bytes.
#![tactic(auto)]

mod entities;
mod kinds;
mod values;

ghost use Rattle.std.specs.Prelude.{◌≡◌};
ghost use Rattle.model.specs.Choice.{every};
ghost use Rattle.model.specs.Contents.{is_group};
ghost use Rattle.entries.specs.Entries.{records_in, Entries};
ghost use Rattle.image_entries.specs.Stored.{is_stored, Parted};

use entries::{Cursor, Step};
pub use kinds::{is_bare, is_storable};
use kinds::{is_group, is_stored};
pub use values::{has, value_number};

// Whether every entry may stand among the real ones.
pub fn all_stored(s: &[u8]) -> bool
    requires { Entries s.now }
    ensures { result ≡ every is_stored (records_in s.now) }
{
    let mut c = Cursor { at: 0 };
    loop {
        match c.next(s) {
            Step::Entry(start, end, next) => {
                if !is_stored(&s[start..end]) {
                    return false;
                }
                c = next;
            }
            Step::Torn => {
                return false;
            }
            Step::End => {
                return true;
            }
        }
    }
}

// Whether every entry is an empty group.
pub fn all_groups(s: &[u8]) -> bool
    requires { Entries s.now }
    ensures { result ≡ every is_group (records_in s.now) }
{
    let mut c = Cursor { at: 0 };
    loop {
        match c.next(s) {
            Step::Entry(start, end, next) => {
                if !is_group(&s[start..end]) {
                    return false;
                }
                c = next;
            }
            Step::Torn => {
                return false;
            }
            Step::End => {
                return true;
            }
        }
    }
}

// Where the first bare entry begins, or the end.
pub fn tail_start(s: &[u8]) -> usize
    requires { Entries s.now }
    ensures { Parted s.now result }
{
    let mut c = Cursor { at: 0 };
    loop {
        match c.next(s) {
            Step::Entry(start, end, next) => {
                if is_bare(&s[start..end]) {
                    return start;
                }
                c = next;
            }
            Step::Torn => {
                return s.len();
            }
            Step::End => {
                return s.len();
            }
        }
    }
}
