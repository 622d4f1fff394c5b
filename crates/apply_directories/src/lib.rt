// Assignments of directories to replicas of partitions, on a work array.
#![tactic(auto)]

mod directories;

ghost use Rattle.std.specs.Prelude.{◌≡◌, ◌+◌, ◌≤◌, length, take};
ghost use Rattle.model.specs.Run.{value};
ghost use Rattle.model.specs.Key.{partition_key};
ghost use Rattle.model.specs.Contents.{key};
ghost use Rattle.model.specs.Move.{plan};
ghost use Rattle.model.specs.declared.Kind.TheVariants.{Partition, PartitionDirAssignment};
ghost use Rattle.laws.specs.Map.{Asc};
ghost use Rattle.entries.specs.Entries.{Entries, IsRecord, record_in};
ghost use Rattle.entries.specs.Held.{entries_in};
ghost use Rattle.apply_drafts.specs.Drafts.{draft_room};
ghost use Rattle.apply_work.specs.Work.{Good, held_in, most_record, Made};
ghost use Rattle.apply_directories.specs.Assign.{IsAssignment, IsPartition, new_directories, Copied, Changed};

use apply_drafts::{copy_in, set_field};
use apply_work::{Bounds, put_real};
use directories::build;
use find::find;
use keys::value_at;
use model::kinds::PARTITION;

// Copies the partition that an assignment names to the start of a buffer. Its length, 0 where there is none.
fn copy_partition(b: &mut [u8], s: &[u8], rec: &[u8]) -> usize
    requires { Entries s.now × IsAssignment rec.now × (draft_room ≤ length b.old) }
    ensures { Copied (partition_key Partition (value 1 (record_in rec.now).run) (value 2 (record_in rec.now).run)) (entries_in s.now) b.new result }
{
    let p = value_at(rec, 1);
    let q = value_at(rec, 2);
    let ps = p.start;
    let pe = p.end;
    let qs = q.start;
    let qe = q.end;
    let place = find(s, PARTITION, &rec[ps..pe], &rec[qs..qe]);
    let at = place.at;
    let end = place.end;
    if end <= at {
        return 0;
    }
    copy_in(b, &s[at..end])
}

// Sets the directories of the partition at the start of a buffer. Its length then, 0 where it has no such replica.
fn change(b: &mut [u8], n: usize, rec: &[u8]) -> usize
    requires { IsPartition (take n b.old) × IsAssignment rec.now × (n ≤ length b.old) × (draft_room ≤ length b.old) }
    ensures { Changed (new_directories (record_in rec.now).run (record_in (take n b.old)).run) (record_in (take n b.old)).run b.new result }
{
    let mut dirs = [0; 1024];
    let size = build(&mut dirs, &b[..n], rec);
    if size == 0 {
        return 0;
    }
    set_field(b, n, 9, &dirs[..size])
}

// Sets the directory of a replica of a stored partition: the first slot of that replica. Directories that are fewer than the replicas are
// first filled up with zeros (MIGRATING).
pub fn assign(w: &mut [u8], b: &mut [u8], bounds: Bounds, rec: &[u8]) -> Bounds
    requires { Good w.old bounds × IsRecord rec.now × ((record_in rec.now).kind ≡ PartitionDirAssignment) × Asc key (held_in w.old bounds) × (bounds.used + most_record ≤ length w.old) × (draft_room ≤ length b.old) }
    ensures { Made (plan PartitionDirAssignment (record_in rec.now).run (held_in w.old bounds)) w.old bounds w.new result }
{
    let mid = bounds.mid;
    let n = copy_partition(b, &w[..mid], rec);
    if n == 0 {
        return bounds;
    }
    let size = change(b, n, rec);
    if size == 0 {
        return bounds;
    }
    put_real(w, bounds, &b[..size])
}
