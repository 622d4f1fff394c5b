// A cursor over the fields of a run: its steps take it by value and hand the next one back.
#![tactic(auto)]

ghost use Rattle.std.specs.Prelude.{◌≡◌};
ghost use Rattle.fields.specs.Fields.{fields_from, Inside, told, Onward, place_of};

use wire::{get16, size};

// Where the next field begins, and where the run ends.
#[derive(Clone, Copy)]
pub struct Cursor {
    pub at: usize,
    pub to: usize,
}

// What stands at a cursor.
#[derive(Clone, Copy)]
pub enum Step {
    // A field: its tag, its value's place and length, and the cursor after it.
    Field {
        tag: usize,
        start: usize,
        len: usize,
        next: Cursor,
    },
    // Bytes that are no whole field.
    Torn,
    // Nothing.
    End,
}

impl Cursor {
    pub fn next(self, s: &[u8]) -> Step
        requires { Inside s.now self }
        ensures { (told s.now result ≡ fields_from s.now self) × Onward self result }
    {
        let at = self.at;
        let to = self.to;
        if at >= to {
            return Step::End;
        }
        if to - at < 3 {
            return Step::Torn;
        }
        let len = get16(s, at + 1);
        if len > to - at - 3 {
            return Step::Torn;
        }
        let start = at + 3;
        Step::Field {
            tag: size(s[at]),
            start,
            len,
            next: Cursor {
                at: start + len,
                to,
            },
        }
    }
}

// Where a field's value was found.
#[derive(Clone, Copy)]
pub enum Found {
    Part { start: usize, len: usize },
    Missing,
}

// The first field of a tag, by its place. `reader` has what callers use.
pub fn field(s: &[u8], from: Cursor, tag: usize) -> Found
    requires { Inside s.now from }
    ensures { result ≡ place_of tag from.at (fields_from s.now from) }
{
    let mut c = from;
    loop {
        match c.next(s) {
            Step::Field {
                tag: t,
                start,
                len,
                next,
            } => {
                if t == tag {
                    return Found::Part { start, len };
                }
                c = next;
            }
            Step::Torn => {
                return Found::Missing;
            }
            Step::End => {
                return Found::Missing;
            }
        }
    }
}
