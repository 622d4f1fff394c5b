// Tests of one field of an entry.
ghost use Rattle.std.specs.Prelude.{◌≡◌, ◌≤◌, length};
ghost use Rattle.model.specs.Choice.{is_some, is_empty};
ghost use Rattle.model.specs.Number.{number};
ghost use Rattle.model.specs.Run.{field as field_of, value};
ghost use Rattle.entries.specs.Entries.{IsRecord, record_in};

use fields::{Cursor, Found};
use keys::{number_at, value_at};
use reader::field;

// Whether there is a field of a tag.
pub fn has(e: &[u8], tag: usize) -> bool
    requires { IsRecord e.now }
    ensures { result ≡ is_some (field_of tag (record_in e.now).run) }
{
    let body = Cursor { at: 3, to: e.len() };
    match field(e, body, tag) {
        Found::Part { start, len } => true,
        Found::Missing => false,
    }
}

// Whether a field's value is empty, or not there.
pub fn is_empty(e: &[u8], tag: usize) -> bool
    requires { IsRecord e.now }
    ensures { result ≡ is_empty (value tag (record_in e.now).run) }
{
    let p = value_at(e, tag);
    p.start == p.end
}

// The number that a field spells, by its width.
pub fn value_number(e: &[u8], tag: usize, width: usize) -> u64
    requires { IsRecord e.now × (width ≤ 8) × (length (value tag (record_in e.now).run) ≡ width) }
    ensures { result ≡ number (value tag (record_in e.now).run) }
{
    number_at(e, tag, width)
}
