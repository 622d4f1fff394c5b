// Records that act only where what is stored says so, and entries of nodes that are taken out.
ghost use Rattle.std.specs.Prelude.{◌≡◌, [], ◌∷◌, ◌+◌, ◌≤◌, length};
ghost use Rattle.model.specs.Number.{bytes};
ghost use Rattle.model.specs.Move.{drop_m, plan};
ghost use Rattle.model.specs.declared.Kind.TheVariants.{ProducerIds, UnregisterBroker};
ghost use Rattle.laws.specs.Lists.{All};
ghost use Rattle.laws_apply.specs.Entries.{Stored};
ghost use Rattle.entries.specs.Entries.{IsRecord, record_in};
ghost use Rattle.find.specs.Found.{Query, query_key};
ghost use Rattle.apply_work.specs.Work.{Good, held_in, most_record, Made};

use apply_moves::{erase_named, set};
use apply_work::Bounds;
use find::{at_epoch, stored_next};
use keys::{node_at, place_in};
use model::NodeId;
use model::kinds::BROKER_REGISTRATION;

// Stores producer ids whose next one is above the stored.
pub fn producers(w: &mut [u8], bounds: Bounds, rec: &[u8]) -> Bounds
    requires { Good w.old bounds × IsRecord rec.now × ((record_in rec.now).kind ≡ ProducerIds) × All Stored (held_in w.old bounds) × (bounds.used + most_record ≤ length w.old) }
    ensures { Made (plan ProducerIds (record_in rec.now).run (held_in w.old bounds)) w.old bounds w.new result }
{
    let mid = bounds.mid;
    if stored_next(&w[..mid]) < place_in(rec, 3, 8) {
        return set(w, bounds, rec);
    }
    bounds
}

// Takes a node's entry of a kind out: a broker's or a controller's.
pub fn erase_node(w: &mut [u8], bounds: Bounds, kind: u8, node: NodeId) -> Bounds
    requires { Good w.old bounds × Query kind (bytes 8 node.0) [] }
    ensures { Made (drop_m (query_key kind (bytes 8 node.0) []) ∷ []) w.old bounds w.new result }
{
    let mut id = [0; 8];
    wire::put(&mut id, 0, 8, node.0);
    erase_named(w, bounds, kind, &id)
}

// Takes the broker of a record's node out, where it is stored at the record's epoch.
pub fn unregister(w: &mut [u8], bounds: Bounds, rec: &[u8]) -> Bounds
    requires { Good w.old bounds × IsRecord rec.now × ((record_in rec.now).kind ≡ UnregisterBroker) }
    ensures { Made (plan UnregisterBroker (record_in rec.now).run (held_in w.old bounds)) w.old bounds w.new result }
{
    let mid = bounds.mid;
    let node = node_at(rec, 1);
    if at_epoch(&w[..mid], node, rec) {
        return erase_node(w, bounds, BROKER_REGISTRATION, node);
    }
    bounds
}
