// Topics' entries changed where they stand in a work array. An entry's length stays, so no other byte moves.
#![tactic(auto)]

ghost use Rattle.std.specs.Prelude.{◌≡◌, map, ◌≤◌, ◌<◌};
ghost use Rattle.model.specs.Move.{clear_named, count_partition};
ghost use Rattle.model.specs.Image.{entry_of};
ghost use Rattle.laws.specs.Lists.{All};
ghost use Rattle.entries.specs.Entries.{IsRecord, record_in};
ghost use Rattle.apply_work.specs.Work.{reals_in, groups_in, Good};
ghost use Rattle.apply_patches.specs.Patches.{is_topic_with, CountFits, StandsFor, patched};

use apply_work::Bounds;
use entries::{Cursor, Step};
use keys::value_at;
use model::kinds::TOPIC;

// Whether an entry is a topic whose field of a tag is `v`.
fn is_topic_with(e: &[u8], tag: usize, v: &[u8]) -> bool
    requires { IsRecord e.now }
    ensures { result ≡ is_topic_with tag v.now (record_in e.now) }
{
    if e[0] != TOPIC {
        return false;
    }
    let p = value_at(e, tag);
    let start = p.start;
    let end = p.end;
    wire::same(&e[start..end], v)
}

// A topic of this id is not named for it any more: the last byte of an entry is its flag.
fn clear_in_entry(e: &mut [u8], id: &[u8])
    requires { StandsFor e.old }
    ensures { e.new ≡ patched (clear_named id.now) e.old }
{
    if is_topic_with(e, 2, id) {
        let at = e.len() - 1;
        wire::put(e, at, 1, 0);
    }
}

// No topic is named for an id.
pub fn clear_named(w: &mut [u8], bounds: Bounds, id: &[u8])
    requires { Good w.old bounds }
    ensures { Good w.new bounds × (map entry_of (reals_in w.new bounds) ≡ map (clear_named id.now) (map entry_of (reals_in w.old bounds))) × (groups_in w.new bounds ≡ groups_in w.old bounds) }
{
    let mid = bounds.mid;
    let mut c = Cursor { at: 0 };
    loop {
        match c.next(&w[..mid]) {
            Step::Entry(start, end, next) => {
                c = next;
                clear_in_entry(&mut w[start..end], id);
            }
            Step::Torn => {
                return;
            }
            Step::End => {
                return;
            }
        }
    }
}

// A topic of this name has `new` more partitions and this replication factor. The count ends 13 bytes before an entry's end, the factor 8.
fn count_in_entry(e: &mut [u8], name: &[u8], new: u64, replicas: u64)
    requires { StandsFor e.old × (new ≤ 1) }
    ensures { e.new ≡ patched (count_partition name.now new replicas) e.old }
{
    if is_topic_with(e, 1, name) {
        let n = e.len();
        let count = wire::get(e, n - 17, 4);
        wire::put(e, n - 17, 4, count + new);
        wire::put(e, n - 10, 2, replicas);
    }
}

// Tells the topic of a name, if there is one, of a partition: `new` is 1 where the partition is, and `replicas` is its replicas' number.
pub fn count_partition(w: &mut [u8], bounds: Bounds, name: &[u8], new: u64, replicas: u64)
    requires { Good w.old bounds × (new ≤ 1) × (replicas < 65536) × All CountFits (map entry_of (reals_in w.old bounds)) }
    ensures { Good w.new bounds × (map entry_of (reals_in w.new bounds) ≡ map (count_partition name.now new replicas) (map entry_of (reals_in w.old bounds))) × (groups_in w.new bounds ≡ groups_in w.old bounds) }
{
    let mid = bounds.mid;
    let mut c = Cursor { at: 0 };
    loop {
        match c.next(&w[..mid]) {
            Step::Entry(start, end, next) => {
                c = next;
                count_in_entry(&mut w[start..end], name, new, replicas);
            }
            Step::Torn => {
                return;
            }
            Step::End => {
                return;
            }
        }
    }
}
