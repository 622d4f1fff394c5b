// A partition's directories, with the one of a replica assigned.
ghost use Rattle.std.specs.Prelude.{◌≡◌, ◌+◌, ◌*◌, ◌-◌, ◌%◌, ◌≤◌, ◌<◌, length, take};
ghost use Rattle.model.specs.Number.{bytes};
ghost use Rattle.model.specs.Move.{replicas, node_count, slot_of, filled, assigned};
ghost use Rattle.entries.specs.Entries.{record_in};
ghost use Rattle.apply_directories.specs.Assign.{IsAssignment, IsPartition, slot_in, SlotIs, new_directories, Built};

use keys::{node_at, value_at};
use model::NodeId;

// How many slots there are, and one of them; their number stands for none.
#[derive(Clone, Copy)]
pub struct Slot {
    pub count: usize,
    pub at: usize,
}

// The first slot of a node among nodes of eight bytes each, their number where it is not among them.
fn slot_of(nodes: &[u8], node: NodeId) -> usize
    requires { length nodes.now % 8 ≡ 0 }
    ensures { SlotIs (slot_of (node_count nodes.now) (bytes 8 node.0) nodes.now) (node_count nodes.now) result }
{
    let count = nodes.len() / 8;
    let mut i = 0;
    while i < count {
        if wire::get(nodes, i * 8, 8) == node.0 {
            return i;
        }
        i += 1;
    }
    i
}

// The slot of an assignment's node among a partition's replicas.
fn slot_in(e: &[u8], rec: &[u8]) -> Slot
    requires { IsPartition e.now × IsAssignment rec.now }
    ensures { (result.count ≡ node_count (replicas (record_in e.now).run)) × SlotIs (slot_in (record_in rec.now).run (record_in e.now).run) result.count result.at }
{
    let p = value_at(e, 4);
    let start = p.start;
    let end = p.end;
    Slot {
        count: (end - start) / 8,
        at: slot_of(&e[start..end], node_at(rec, 3)),
    }
}

// Writes directories with zeros up to a count, and with an id in a slot. Their length.
fn fill(dirs: &mut [u8], old: &[u8], count: usize, slot: usize, id: &[u8]) -> usize
    requires { (length old.now ≤ length dirs.old) × (count * 16 ≤ length dirs.old) × (slot < count) × (length id.now ≡ 16) }
    ensures { (take result dirs.new ≡ assigned slot id.now (filled count old.now)) × (result ≡ length old.now + (count * 16 - length old.now)) }
{
    wire::clear(dirs);
    wire::copy(dirs, 0, old);
    let at = slot * 16;
    wire::copy(dirs, at, id);
    let len = count * 16;
    if len < old.len() {
        return old.len();
    }
    len
}

// Writes a partition's directories after an assignment. Their length, 0 where the partition has no such replica.
pub fn build(dirs: &mut [u8], e: &[u8], rec: &[u8]) -> usize
    requires { IsPartition e.now × IsAssignment rec.now × (1024 ≤ length dirs.old) }
    ensures { Built (new_directories (record_in rec.now).run (record_in e.now).run) dirs.new result }
{
    let s = slot_in(e, rec);
    let count = s.count;
    let slot = s.at;
    if count <= slot {
        return 0;
    }
    let p = value_at(e, 9);
    let q = value_at(rec, 4);
    let ps = p.start;
    let pe = p.end;
    let qs = q.start;
    let qe = q.end;
    fill(dirs, &e[ps..pe], count, slot, &rec[qs..qe])
}
