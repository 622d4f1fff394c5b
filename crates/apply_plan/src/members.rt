// Configs of brokers and quotas: members of a group.
ghost use Rattle.std.specs.Prelude.{◌≡◌, true, ◌||◌, [], ◌∷◌, ◌+◌, ◌≤◌, length};
ghost use Rattle.model.specs.Choice.{is_some};
ghost use Rattle.model.specs.Run.{field, values};
ghost use Rattle.model.specs.Contents.{is_config, entities_in_order};
ghost use Rattle.model.specs.Move.{join_or_leave, plan};
ghost use Rattle.model.specs.declared.Kind.TheVariants.{ClientQuota};
ghost use Rattle.laws_image.specs.Groups.{Grouped};
ghost use Rattle.entries.specs.Entries.{IsRecord, record_in};
ghost use Rattle.apply_drafts.specs.Drafts.{draft_room};
ghost use Rattle.apply_work.specs.Work.{Good, held_in, most_record, Made};

use apply_entities::sort_entities;
use apply_groups::{join, leave};
use apply_work::Bounds;
use image_entries::is_bare;

// A member joins its group where it has a value, else it leaves.
pub fn member(w: &mut [u8], b: &mut [u8], bounds: Bounds, rec: &[u8]) -> Bounds
    requires { Good w.old bounds × IsRecord rec.now × Grouped (record_in rec.now).kind × (is_config (record_in rec.now) || entities_in_order (values 1 (record_in rec.now).run) ≡ true) × (bounds.used + most_record ≤ length w.old) × (draft_room ≤ length b.old) }
    ensures { Made (join_or_leave (is_some (field 3 (record_in rec.now).run)) (record_in rec.now) ∷ []) w.old bounds w.new result }
{
    if is_bare(rec) {
        return leave(w, b, bounds, rec);
    }
    join(w, b, bounds, rec)
}

// A quota, with its entities in order.
pub fn quota(w: &mut [u8], a: &mut [u8], b: &mut [u8], bounds: Bounds, rec: &[u8]) -> Bounds
    requires { Good w.old bounds × IsRecord rec.now × ((record_in rec.now).kind ≡ ClientQuota) × (bounds.used + most_record ≤ length w.old) × (draft_room ≤ length a.old) × (draft_room ≤ length b.old) }
    ensures { Made (plan ClientQuota (record_in rec.now).run (held_in w.old bounds)) w.old bounds w.new result }
{
    let n = sort_entities(a, rec);
    member(w, b, bounds, &a[..n])
}
