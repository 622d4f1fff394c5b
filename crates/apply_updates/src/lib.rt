// A partition's update: moves of its partition, of its ELR and of its recovery.
#![tactic(auto)]

mod built;

ghost use Rattle.std.specs.Prelude.{◌≡◌, ◌+◌, ◌*◌, ◌≤◌, length};
ghost use Rattle.model.specs.Move.{update_moves};
ghost use Rattle.model.specs.declared.Kind.TheVariants.{PartitionUpdate};
ghost use Rattle.laws.specs.Lists.{All};
ghost use Rattle.entries.specs.Entries.{IsRecord, record_in};
ghost use Rattle.apply_patches.specs.Patches.{CountFits};
ghost use Rattle.apply_drafts.specs.Drafts.{draft_room};
ghost use Rattle.apply_work.specs.Work.{Good, held_in, most_record, Made};
ghost use Rattle.apply_updates.specs.Updates.{IsUpdate, elr_moves, recovery_moves};

use apply_moves::set;
use apply_topics::put_partition;
use apply_work::Bounds;
use built::{elr_record, partition_record, recovery_record};
use image_entries::has;

// An update's ELR, where both lists are present.
fn set_elr(w: &mut [u8], b: &mut [u8], bounds: Bounds, rec: &[u8]) -> Bounds
    requires { Good w.old bounds × IsUpdate rec.now × (bounds.used + most_record ≤ length w.old) × (draft_room ≤ length b.old) }
    ensures { Made (elr_moves (record_in rec.now).run) w.old bounds w.new result }
{
    if !has(rec, 2) {
        return bounds;
    }
    if !has(rec, 3) {
        return bounds;
    }
    let n = elr_record(b, rec);
    set(w, bounds, &b[..n])
}

// An update's recovery, where it is present.
fn set_recovery(w: &mut [u8], b: &mut [u8], bounds: Bounds, rec: &[u8]) -> Bounds
    requires { Good w.old bounds × IsUpdate rec.now × (bounds.used + most_record ≤ length w.old) × (draft_room ≤ length b.old) }
    ensures { Made (recovery_moves (record_in rec.now).run) w.old bounds w.new result }
{
    if !has(rec, 4) {
        return bounds;
    }
    let n = recovery_record(b, rec);
    set(w, bounds, &b[..n])
}

// A partition's update: its partition, then its ELR where both lists are present, then its recovery where that is present.
pub fn update(w: &mut [u8], b: &mut [u8], bounds: Bounds, rec: &[u8]) -> Bounds
    requires { Good w.old bounds × IsRecord rec.now × ((record_in rec.now).kind ≡ PartitionUpdate) × All CountFits (held_in w.old bounds) × (bounds.used + 3 * most_record ≤ length w.old) × (draft_room ≤ length b.old) }
    ensures { Made (update_moves (record_in rec.now).run) w.old bounds w.new result }
{
    let n = partition_record(b, rec);
    let placed = put_partition(w, bounds, &b[..n]);
    let chosen = set_elr(w, b, placed, rec);
    set_recovery(w, b, chosen, rec)
}
