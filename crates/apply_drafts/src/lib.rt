// A record that is built in a lent buffer: begun, or copied from another, and then changed a field at a time.
#![tactic(auto)]

ghost use Rattle.std.specs.Prelude.{◌≡◌, ◌+◌, ◌<◌, ◌≤◌, length, take};
ghost use Rattle.model.specs.Run.{done, set_field};
ghost use Rattle.keys.specs.Keys.{kind_in, run_in};
ghost use Rattle.apply_drafts.specs.Drafts.{spells, IsDraft, Spot};

use fields::{Cursor, Step};
use keys::Part;

// Begins a record of a kind, with no field yet. Its length.
pub fn begin(b: &mut [u8], kind: u8) -> usize
    requires { 3 ≤ length b.old }
    ensures { (result ≡ 3) × (take result b.new ≡ spells kind done) }
{
    records::put_head(b, 0, kind, 0);
    3
}

// Copies a record to the start of a buffer. Its length.
pub fn copy_in(b: &mut [u8], rec: &[u8]) -> usize
    requires { length rec.now ≤ length b.old }
    ensures { (result ≡ length rec.now) × (take result b.new ≡ rec.now) }
{
    wire::copy(b, 0, rec);
    rec.len()
}

// Where the first field of a tag stands in a record, or the place before the first greater tag where it is to be put.
fn place_of(s: &[u8], tag: usize) -> Part
    requires { IsDraft s.now }
    ensures { Spot s.now tag result.start result.end }
{
    let mut c = Cursor { at: 3, to: s.len() };
    loop {
        let at = c.at;
        match c.next(s) {
            Step::Field {
                tag: t,
                start,
                len,
                next,
            } => {
                if tag < t {
                    return Part { start: at, end: at };
                }
                if t == tag {
                    return Part {
                        start: at,
                        end: start + len,
                    };
                }
                c = next;
            }
            Step::Torn => {
                return Part { start: at, end: at };
            }
            Step::End => {
                return Part { start: at, end: at };
            }
        }
    }
}

// Sets a field of the record at the start of a buffer: its value is replaced, or the field is put before the first greater tag. The record's
// length then.
pub fn set_field(b: &mut [u8], n: usize, tag: u8, v: &[u8]) -> usize
    requires { (n + 3 + length v.now ≤ length b.old) × (length v.now < 65536) × IsDraft (take n b.old) }
    ensures { (take result b.new ≡ spells (kind_in b.old) (set_field tag v.now (run_in (take n b.old)))) × (result ≤ n + 3 + length v.now) }
{
    let kind = b[0];
    let p = place_of(&b[..n], wire::size(tag));
    let at = p.start;
    let end = p.end;
    let to = at + 3 + v.len();
    let left = n - end;
    wire::shift(b, end, to, left);
    records::put_field(b, at, tag, v);
    let size = to + left;
    records::put_head(b, 0, kind, size - 3);
    size
}
