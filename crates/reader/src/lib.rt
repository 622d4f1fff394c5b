// A reader over a record's bytes and an offset. It holds a slice, so each function over it is thin: it takes the reader apart and leaves the
// work to a function on the slice and the number. `find`, `field` and `first` have plain parameters and serve callers that hold no reader: every
// operation reads its records' fields by tag through them.
#![tactic(auto)]

ghost use Rattle.std.specs.Prelude.{◌≡◌, ◌-◌, length, drop};
ghost use Rattle.model.specs.Run.{run_of, field as field_of};
ghost use Rattle.fields.specs.Fields.{fields_from, Inside, place_of, held, Within};
ghost use Rattle.reader.specs.Says.{Says};

use fields::{Cursor, Found, Step};

// What stands at a place.
#[derive(Clone, Copy)]
pub enum Next {
    // A field: its tag, its value's place and length, and the place after it.
    Field {
        tag: usize,
        start: usize,
        len: usize,
        next: usize,
    },
    // Bytes that are no whole field.
    Torn,
    // Nothing.
    End,
}

// What stands at `at`; past the end of `s`, nothing.
pub fn field_at(s: &[u8], at: usize) -> Next
    ensures { Says s.now at result }
{
    if s.len() < at {
        return Next::End;
    }
    let c = Cursor { at, to: s.len() };
    match c.next(s) {
        Step::Field {
            tag,
            start: _,
            len,
            next: _,
        } => {
            let start = at + 3;
            let next = start + len;
            Next::Field {
                tag,
                start,
                len,
                next,
            }
        }
        Step::Torn => Next::Torn,
        Step::End => Next::End,
    }
}

// Where the first field of a tag from `at` on has its value; past the end of `s` there is none.
pub fn place_at(s: &[u8], at: usize, tag: usize) -> Found
    ensures { result ≡ place_of tag at (run_of (drop at s.now)) }
{
    if s.len() < at {
        return Found::Missing;
    }
    fields::field(s, Cursor { at, to: s.len() }, tag)
}

// How many bytes stand from `at` on.
pub fn left_at(s: &[u8], at: usize) -> usize
    ensures { result ≡ length s.now - at }
{
    if at >= s.len() {
        return 0;
    }
    s.len() - at
}

// The bytes, and the place to read at.
#[derive(Clone, Copy)]
pub struct Reader<'a> {
    pub src: &'a [u8],
    pub at: usize,
}

impl<'a> Reader<'a> {
    pub fn new(src: &'a [u8], at: usize) -> Reader<'a>
        ensures { (result.src ≡ src.entry) × (result.at ≡ at) }
    {
        Reader { src, at }
    }

    // What stands at the reader's place.
    pub fn next(self) -> Next
        ensures { Says self.entry.src.now self.entry.at result }
    {
        field_at(self.src, self.at)
    }

    // Where the first field of a tag from the reader's place on has its value.
    pub fn field(self, tag: usize) -> Found
        ensures { result ≡ place_of tag self.entry.at (run_of (drop self.entry.at self.entry.src.now)) }
    {
        place_at(self.src, self.at, tag)
    }

    // The same bytes, at another place.
    pub fn moved(self, at: usize) -> Reader<'a>
        ensures { (result.src ≡ self.entry.src) × (result.at ≡ at) }
    {
        Reader { src: self.src, at }
    }

    // How many bytes are left; past the end, 0.
    pub fn left(self) -> usize
        ensures { result ≡ length self.entry.src.now - self.entry.at }
    {
        left_at(self.src, self.at)
    }
}

// The first field of the body of the record that fills `s`: it stands after the kind and the body's length.
pub fn first(s: &[u8]) -> Next
    ensures { Says s.now 3 result }
{
    Reader::new(s, 3).next()
}

// Where the first field of a tag from `at` on has its value.
pub fn find(s: &[u8], at: usize, tag: usize) -> Found
    ensures { result ≡ place_of tag at (run_of (drop at s.now)) }
{
    Reader::new(s, at).field(tag)
}

// The same of the fields between a cursor's two places.
pub fn field(s: &[u8], from: Cursor, tag: usize) -> Found
    requires { Inside s.now from }
    ensures { (held s.now result ≡ field_of tag (fields_from s.now from)) × Within from.to result }
{
    let at = from.at;
    let to = from.to;
    find(&s[..to], at, tag)
}
