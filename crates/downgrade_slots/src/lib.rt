// The directory assignments of a partition: a record for each slot that both its replicas and its directories have, unless the slot's
// directory is MIGRATING, all zeros.
#![tactic(auto)]

ghost use Rattle.std.specs.Prelude.{◌≡◌, ◌+◌, ◌*◌, ◌≤◌, length};
ghost use Rattle.model.specs.Number.{bytes};
ghost use Rattle.model.specs.Record.{record_bytes};
ghost use Rattle.model.specs.Downgrade.{slots};
ghost use Rattle.keys.specs.Keys.{kind_in, run_in};
ghost use Rattle.entries.specs.Entries.{IsRecord};
ghost use Rattle.records.specs.Answers.{put_at};
ghost use Rattle.downgrade_slots.specs.Slots.{assigning, slot_bytes, slots_bytes, slot_size, slots_size, assignment_bytes};

use keys::value_at;
use model::NodeId;
use model::kinds::PARTITION_DIR_ASSIGNMENT;
use records::{put_field, put_head};

const FIXED_SIZE: usize = 39;

// The directory of a replica that has none yet.
const MIGRATING: [u8; 16] = [0; 16];

// How many slots a partition has.
fn slot_count(s: &[u8]) -> usize
    requires { 3 ≤ length s.now }
    ensures { result ≡ slots (run_in s.now) }
{
    let p = value_at(s, 4);
    let q = value_at(s, 9);
    let nodes = (p.end - p.start) / 8;
    let dirs = (q.end - q.start) / 16;
    if nodes < dirs {
        return nodes;
    }
    dirs
}

// How long the record of a slot is, where it has one of a size.
fn slot_size(dir: &[u8], size: usize) -> usize
    ensures { result ≡ slot_size dir.now size }
{
    let migrating = MIGRATING;
    if wire::same(dir, &migrating) {
        return 0;
    }
    size
}

// How long the records of the first slots are, where each is of a size.
fn slots_size(dirs: &[u8], count: usize, size: usize) -> usize
    requires { (count ≤ 64) × (count * 16 ≤ length dirs.now) × (size ≤ 304) }
    ensures { (result ≡ slots_size count size dirs.now) × (result ≤ 304 * count) }
{
    let mut n = 0;
    let mut i = 0;
    while i < count {
        let at = i * 16;
        let end = at + 16;
        n = n + slot_size(&dirs[at..end], size);
        i += 1;
    }
    n
}

// Writes an assignment of a replica to MIGRATING. Where it ends.
fn put_assignment(out: &mut [u8], at: usize, name: &[u8], number: &[u8], node: &[u8]) -> usize
    requires { at + length (record_bytes (assigning name.now number.now node.now)) ≤ length out.old }
    ensures { (result ≡ at + length (record_bytes (assigning name.now number.now node.now))) × (out.new ≡ put_at out.old at (record_bytes (assigning name.now number.now node.now))) }
{
    let migrating = MIGRATING;
    let first = at + 3;
    let second = first + 3 + name.len();
    let third = second + 3 + number.len();
    let fourth = third + 3 + node.len();
    put_head(out, at, PARTITION_DIR_ASSIGNMENT, fourth + 19 - first);
    put_field(out, first, 1, name);
    put_field(out, second, 2, number);
    put_field(out, third, 3, node);
    put_field(out, fourth, 4, &migrating);
    fourth + 19
}

// Writes the record of a slot, if it has one. Where it ends.
fn put_slot(
    out: &mut [u8],
    at: usize,
    name: &[u8],
    number: &[u8],
    node: NodeId,
    dir: &[u8],
) -> usize
    requires { at + length (slot_bytes name.now number.now (bytes 8 node.0) dir.now) ≤ length out.old }
    ensures { (result ≡ at + length (slot_bytes name.now number.now (bytes 8 node.0) dir.now)) × (out.new ≡ put_at out.old at (slot_bytes name.now number.now (bytes 8 node.0) dir.now)) }
{
    let migrating = MIGRATING;
    if wire::same(dir, &migrating) {
        return at;
    }
    let mut id = [0; 8];
    wire::put(&mut id, 0, 8, node.0);
    put_assignment(out, at, name, number, &id)
}

// Writes the records of the first slots. Where they end.
fn put_slots(
    out: &mut [u8],
    at: usize,
    count: usize,
    name: &[u8],
    number: &[u8],
    nodes: &[u8],
    dirs: &[u8],
) -> usize
    requires { (count * 8 ≤ length nodes.now) × (count * 16 ≤ length dirs.now) × (at + length (slots_bytes name.now number.now count nodes.now dirs.now) ≤ length out.old) }
    ensures { (result ≡ at + length (slots_bytes name.now number.now count nodes.now dirs.now)) × (out.new ≡ put_at out.old at (slots_bytes name.now number.now count nodes.now dirs.now)) }
{
    let mut to = at;
    let mut i = 0;
    while i < count {
        let dir = i * 16;
        let dir_end = dir + 16;
        let node = NodeId(wire::get(nodes, i * 8, 8));
        to = put_slot(out, to, name, number, node, &dirs[dir..dir_end]);
        i += 1;
    }
    to
}

// How long the assignments of a partition are.
pub fn assignments_size(s: &[u8]) -> usize
    requires { IsRecord s.now × (kind_in s.now ≡ 2) }
    ensures { (result ≡ length (assignment_bytes (run_in s.now))) × (result ≤ 19 * length s.now) }
{
    let name = value_at(s, 1);
    let number = value_at(s, 2);
    let dirs = value_at(s, 9);
    let start = dirs.start;
    let end = dirs.end;
    let size = FIXED_SIZE + (name.end - name.start) + (number.end - number.start);
    slots_size(&s[start..end], slot_count(s), size)
}

// Writes the assignments of a partition. Where they end.
pub fn put_assignments(out: &mut [u8], at: usize, s: &[u8]) -> usize
    requires { IsRecord s.now × (kind_in s.now ≡ 2) × (at + length (assignment_bytes (run_in s.now)) ≤ length out.old) }
    ensures { (result ≡ at + length (assignment_bytes (run_in s.now))) × (out.new ≡ put_at out.old at (assignment_bytes (run_in s.now))) }
{
    let name = value_at(s, 1);
    let number = value_at(s, 2);
    let nodes = value_at(s, 4);
    let dirs = value_at(s, 9);
    let name_at = name.start;
    let name_end = name.end;
    let number_at = number.start;
    let number_end = number.end;
    let nodes_at = nodes.start;
    let nodes_end = nodes.end;
    let dirs_at = dirs.start;
    let dirs_end = dirs.end;
    put_slots(
        out,
        at,
        slot_count(s),
        &s[name_at..name_end],
        &s[number_at..number_end],
        &s[nodes_at..nodes_end],
        &s[dirs_at..dirs_end],
    )
}
