// Moves of single entries on a work array, but for topics, partitions and members of groups.
#![tactic(auto)]

ghost use Rattle.std.specs.Prelude.{[], ◌∷◌, ◌+◌, ◌≤◌, length};
ghost use Rattle.model.specs.Contents.{storable};
ghost use Rattle.model.specs.Move.{drop_m, set_or_drop};
ghost use Rattle.entries.specs.Entries.{IsRecord, record_in};
ghost use Rattle.find.specs.Found.{Query, query_key};
ghost use Rattle.apply_work.specs.Work.{Good, most_record, Made};
ghost use Rattle.apply_moves.specs.Moves.{IsPlain};

use apply_work::{Bounds, drop_real, put_real};
use find::probe;
use image_entries::is_storable;

// Stores a record in its key's place where Apply stores such a record, else takes its key's entry out.
pub fn set(w: &mut [u8], bounds: Bounds, rec: &[u8]) -> Bounds
    requires { Good w.old bounds × IsRecord rec.now × IsPlain (record_in rec.now) × (bounds.used + most_record ≤ length w.old) }
    ensures { Made (set_or_drop (storable (record_in rec.now).kind (record_in rec.now).run) (record_in rec.now) ∷ []) w.old bounds w.new result }
{
    if is_storable(rec) {
        return put_real(w, bounds, rec);
    }
    drop_real(w, bounds, rec)
}

// Takes the entry of a kind that a first field names out.
pub fn erase_named(w: &mut [u8], bounds: Bounds, kind: u8, name: &[u8]) -> Bounds
    requires { Good w.old bounds × Query kind name.now [] }
    ensures { Made (drop_m (query_key kind name.now []) ∷ []) w.old bounds w.new result }
{
    let mut p = [0; 519];
    let n = probe(&mut p, kind, name, b"");
    drop_real(w, bounds, &p[..n])
}
