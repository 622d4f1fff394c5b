// The records that a partition's update has, built in a lent buffer.
ghost use Rattle.std.specs.Prelude.{◌≡◌, ◌+◌, ◌<◌, ◌≤◌, length, take};
ghost use Rattle.std.proofs.Math.Seq.{slice};
ghost use Rattle.model.specs.Run.{value, set_field};
ghost use Rattle.model.specs.Record.{record_bytes};
ghost use Rattle.keys.specs.Keys.{kind_in, run_in};
ghost use Rattle.apply_drafts.specs.Drafts.{spells, IsDraft, draft_room};
ghost use Rattle.apply_updates.specs.Updates.{IsUpdate, partition_of, named_of, partition_rec, updated_elr, updated_recovery};

use apply_drafts::{begin, set_field};
use fields::{Cursor, Found};
use keys::{Part, value_at};
use model::kinds::{PARTITION, PARTITION_ELR, PARTITION_RECOVERY};
use reader::field;

// Writes the record of an update's partition. Its length.
pub fn partition_record(b: &mut [u8], rec: &[u8]) -> usize
    requires { IsUpdate rec.now × (draft_room ≤ length b.old) }
    ensures { (take result b.new ≡ record_bytes (partition_rec (run_in rec.now))) × (result ≤ draft_room) }
{
    let p = value_at(rec, 1);
    let start = p.start;
    let end = p.end;
    records::put_field(b, 0, PARTITION, &rec[start..end]);
    3 + (end - start)
}

// Where a field of an update's partition stands, or nothing where there is none.
fn nested_at(rec: &[u8], tag: usize) -> Part
    requires { 3 ≤ length rec.now }
    ensures { (slice result.start result.end rec.now ≡ value tag (partition_of (run_in rec.now))) × (result.start ≤ result.end) × (result.end ≤ length rec.now) }
{
    let p = value_at(rec, 1);
    let partition = Cursor {
        at: p.start,
        to: p.end,
    };
    match field(rec, partition, tag) {
        Found::Part { start, len } => Part {
            start,
            end: start + len,
        },
        Found::Missing => Part { start: 0, end: 0 },
    }
}

// Begins a record of a kind with the name and the number of an update's partition. Its length.
fn begin_named(b: &mut [u8], kind: u8, rec: &[u8]) -> usize
    requires { IsUpdate rec.now × (draft_room ≤ length b.old) }
    ensures { (take result b.new ≡ spells kind (named_of (run_in rec.now))) × (result ≤ 268) }
{
    let p = nested_at(rec, 1);
    let ps = p.start;
    let pe = p.end;
    let q = nested_at(rec, 2);
    let qs = q.start;
    let qe = q.end;
    let n = begin(b, kind);
    let m = set_field(b, n, 1, &rec[ps..pe]);
    set_field(b, m, 2, &rec[qs..qe])
}

// Sets a field of the record at the start of a buffer to the value of a field of another record. The record's length then.
fn copy_field(b: &mut [u8], n: usize, tag: u8, rec: &[u8], from: usize) -> usize
    requires { (3 ≤ length rec.now) × (n + 3 + length (value from (run_in rec.now)) ≤ length b.old) × (length (value from (run_in rec.now)) < 65536) × IsDraft (take n b.old) }
    ensures { (take result b.new ≡ spells (kind_in b.old) (set_field tag (value from (run_in rec.now)) (run_in (take n b.old)))) × (result ≤ n + 3 + length (value from (run_in rec.now))) }
{
    let p = value_at(rec, from);
    let start = p.start;
    let end = p.end;
    set_field(b, n, tag, &rec[start..end])
}

// Writes the record of an update's PARTITION_ELR. Its length.
pub fn elr_record(b: &mut [u8], rec: &[u8]) -> usize
    requires { IsUpdate rec.now × (draft_room ≤ length b.old) }
    ensures { (take result b.new ≡ record_bytes (updated_elr (run_in rec.now))) × (result ≤ draft_room) }
{
    let n = begin_named(b, PARTITION_ELR, rec);
    let m = copy_field(b, n, 3, rec, 2);
    copy_field(b, m, 4, rec, 3)
}

// Writes the record of an update's recovery. Its length.
pub fn recovery_record(b: &mut [u8], rec: &[u8]) -> usize
    requires { IsUpdate rec.now × (draft_room ≤ length b.old) }
    ensures { (take result b.new ≡ record_bytes (updated_recovery (run_in rec.now))) × (result ≤ draft_room) }
{
    let n = begin_named(b, PARTITION_RECOVERY, rec);
    copy_field(b, n, 3, rec, 4)
}
