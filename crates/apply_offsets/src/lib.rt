// Advances of partition offsets: an advance is added to the stored offset, and the sum is stored in its place.
#![tactic(auto)]

ghost use Rattle.std.specs.Prelude.{◌≡◌, ◌+◌, ◌≤◌, length, take};
ghost use Rattle.model.specs.Number.{number, place};
ghost use Rattle.model.specs.Run.{value};
ghost use Rattle.model.specs.Record.{record_bytes};
ghost use Rattle.model.specs.Move.{offset_sum, sum_leaves, stored_offset, plan};
ghost use Rattle.model.specs.declared.Kind.TheVariants.{PartitionOffsetAdvance};
ghost use Rattle.entries.specs.Entries.{Entries, IsRecord, record_in};
ghost use Rattle.entries.specs.Held.{entries_in};
ghost use Rattle.apply_drafts.specs.Drafts.{draft_room};
ghost use Rattle.apply_work.specs.Work.{Good, held_in, most_record, Made};
ghost use Rattle.apply_offsets.specs.Advances.{sum_after, IsSum, offset_rec};

use apply_drafts::{copy_in, set_field};
use apply_moves::set;
use apply_work::Bounds;
use entries::seek;
use keys::place_in;

// Zero's place among signed numbers of eight bytes.
const ZERO: u64 = wire::HALF;

// A sum of two signed numbers: its place among them, and whether it leaves them. Below them the place is the lowest; above them it starts again
// from there.
#[derive(Clone, Copy)]
struct Sum {
    place: u64,
    leaves: bool,
}

// The sum of two signed numbers, each by its place.
fn add(a: u64, b: u64) -> Sum
    ensures { IsSum (a + b) result.place result.leaves }
{
    if a < ZERO {
        let short = ZERO - a;
        if b < short {
            return Sum {
                place: 0,
                leaves: true,
            };
        }
        return Sum {
            place: b - short,
            leaves: false,
        };
    }
    let more = a - ZERO;
    let left = u64::MAX - more;
    if left < b {
        return Sum {
            place: b - left - 1,
            leaves: true,
        };
    }
    Sum {
        place: more + b,
        leaves: false,
    }
}

// The place of the offset that is stored for a record's partition; nothing stored counts as 0.
fn stored_place(s: &[u8], rec: &[u8]) -> u64
    requires { Entries s.now × IsRecord rec.now × ((record_in rec.now).kind ≡ PartitionOffsetAdvance) }
    ensures { result ≡ place 8 (number (stored_offset (record_in rec.now).run (entries_in s.now))) }
{
    let p = seek(s, rec);
    let at = p.at;
    let end = p.end;
    if end <= at {
        return ZERO;
    }
    place_in(&s[at..end], 3, 8)
}

// The sum of the stored offset and a record's advance.
fn sum_of(s: &[u8], rec: &[u8]) -> Sum
    requires { Entries s.now × IsRecord rec.now × ((record_in rec.now).kind ≡ PartitionOffsetAdvance) }
    ensures { IsSum (sum_after (record_in rec.now).run (entries_in s.now)) result.place result.leaves }
{
    let old = stored_place(s, rec);
    let more = place_in(rec, 3, 8);
    add(old, more)
}

// Whether the sum of the stored offset and a record's advance leaves i64.
pub fn overflows(s: &[u8], rec: &[u8]) -> bool
    requires { Entries s.now × IsRecord rec.now × ((record_in rec.now).kind ≡ PartitionOffsetAdvance) }
    ensures { result ≡ sum_leaves (offset_sum (stored_offset (record_in rec.now).run (entries_in s.now)) (value 3 (record_in rec.now).run)) }
{
    let sum = sum_of(s, rec);
    sum.leaves
}

// Builds a record with the offset of a place in a lent buffer. Its length.
fn draft(b: &mut [u8], rec: &[u8], offset: u64) -> usize
    requires { IsRecord rec.now × ((record_in rec.now).kind ≡ PartitionOffsetAdvance) × (draft_room ≤ length b.old) }
    ensures { (take result b.new ≡ record_bytes (offset_rec (record_in rec.now).run offset)) × (result ≤ draft_room) }
{
    let mut v = [0; 8];
    wire::put(&mut v, 0, 8, wire::place(offset));
    let n = copy_in(b, rec);
    set_field(b, n, 3, &v)
}

// Stores the sum in the record's place.
pub fn advance(w: &mut [u8], b: &mut [u8], bounds: Bounds, rec: &[u8]) -> Bounds
    requires { Good w.old bounds × IsRecord rec.now × ((record_in rec.now).kind ≡ PartitionOffsetAdvance) × (bounds.used + most_record ≤ length w.old) × (draft_room ≤ length b.old) }
    ensures { Made (plan PartitionOffsetAdvance (record_in rec.now).run (held_in w.old bounds)) w.old bounds w.new result }
{
    let mid = bounds.mid;
    let sum = sum_of(&w[..mid], rec);
    let n = draft(b, rec, sum.place);
    set(w, bounds, &b[..n])
}
