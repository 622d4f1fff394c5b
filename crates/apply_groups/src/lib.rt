// The configs of a node and the quotas of an entity list are groups: a member joins its group on a work array or leaves it.
#![tactic(auto)]

ghost use Rattle.std.specs.Prelude.{◌≡◌, true, ◌||◌, [], ◌∷◌, ◌+◌, ◌≤◌, length, take};
ghost use Rattle.model.specs.Run.{values};
ghost use Rattle.model.specs.Record.{record_bytes};
ghost use Rattle.model.specs.Contents.{group_of, is_group, is_config, entities_in_order};
ghost use Rattle.model.specs.Move.{join_m, leave_m};
ghost use Rattle.laws_image.specs.Groups.{Grouped};
ghost use Rattle.entries.specs.Entries.{records_in, Entries, IsRecord, record_in};
ghost use Rattle.image_groups.specs.Groups.{apart_in};
ghost use Rattle.apply_work.specs.Work.{Good, most_record, Made};

use apply_work::{Bounds, drop_group, drop_real, put_group, put_real};
use entries::{Cursor, Step};
use image_groups::{leading_end, same_group};

// An empty field of tag 2.
const EMPTY_NAME: u64 = 0x02_0000;

// The record of a record's empty group, in a lent buffer: an empty name and no value. Its length.
pub fn group_record(b: &mut [u8], rec: &[u8]) -> usize
    requires { IsRecord rec.now × Grouped (record_in rec.now).kind × (length rec.now + 3 ≤ length b.old) }
    ensures { (take result b.new ≡ record_bytes (group_of (record_in rec.now))) × (result ≤ length rec.now) }
{
    let n = leading_end(rec);
    wire::copy(b, 0, &rec[..1]);
    wire::put(b, 1, 2, n as u64);
    wire::copy(b, 3, &rec[3..n]);
    wire::put(b, n, 3, EMPTY_NAME);
    n + 3
}

// Whether no entry is of an empty group.
fn is_apart(s: &[u8], g: &[u8]) -> bool
    requires { Entries s.now × IsRecord g.now × (is_group (record_in g.now) ≡ true) }
    ensures { result ≡ apart_in (records_in s.now) (record_in g.now) }
{
    let mut c = Cursor { at: 0 };
    loop {
        match c.next(s) {
            Step::Entry(start, end, next) => {
                if same_group(&s[start..end], g) {
                    return false;
                }
                c = next;
            }
            Step::Torn => {
                return true;
            }
            Step::End => {
                return true;
            }
        }
    }
}

// Puts a member among the real entries: its group is not empty then.
pub fn join(w: &mut [u8], b: &mut [u8], bounds: Bounds, rec: &[u8]) -> Bounds
    requires { Good w.old bounds × IsRecord rec.now × Grouped (record_in rec.now).kind × (bounds.used + most_record ≤ length w.old) × (length rec.now + 3 ≤ length b.old) }
    ensures { Made (join_m (record_in rec.now) ∷ []) w.old bounds w.new result }
{
    let n = group_record(b, rec);
    let left = drop_group(w, bounds, &b[..n]);
    put_real(w, left, rec)
}

// Takes a member out; its group is left behind, empty, where it was the last.
pub fn leave(w: &mut [u8], b: &mut [u8], bounds: Bounds, rec: &[u8]) -> Bounds
    requires { Good w.old bounds × IsRecord rec.now × Grouped (record_in rec.now).kind × (is_config (record_in rec.now) || entities_in_order (values 1 (record_in rec.now).run) ≡ true) × (bounds.used + most_record ≤ length w.old) × (length rec.now + 3 ≤ length b.old) }
    ensures { Made (leave_m (record_in rec.now) ∷ []) w.old bounds w.new result }
{
    let n = group_record(b, rec);
    let left = drop_real(w, bounds, rec);
    let mid = left.mid;
    if is_apart(&w[..mid], &b[..n]) {
        return put_group(w, left, &b[..n]);
    }
    left
}
