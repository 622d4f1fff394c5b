// Changes of brokers' registrations on a work array.
#![tactic(auto)]

mod steps;

ghost use Rattle.std.specs.Prelude.{◌≡◌, ◌+◌, ◌≤◌, length};
ghost use Rattle.model.specs.Number.{bytes};
ghost use Rattle.model.specs.Run.{value};
ghost use Rattle.model.specs.Move.{broker_at, plan};
ghost use Rattle.model.specs.declared.Kind.TheVariants.{BrokerRegistrationChange};
ghost use Rattle.entries.specs.Entries.{Entries, IsRecord, record_in};
ghost use Rattle.entries.specs.Held.{entries_in};
ghost use Rattle.apply_drafts.specs.Drafts.{draft_room};
ghost use Rattle.apply_work.specs.Work.{Good, held_in, most_record, Made};
ghost use Rattle.apply_brokers.specs.Change.{IsChange, Copied};

use apply_drafts::copy_in;
use apply_moves::set;
use apply_work::Bounds;
use find::find_node;
use keys::{node_at, same_value};
use model::NodeId;
use model::kinds::BROKER_REGISTRATION;
use steps::change;

const NODE: usize = 1;

// Copies the broker of a node, where it is stored at a change's epoch, to the start of a buffer. Its length, 0 where there is none.
fn copy_broker(b: &mut [u8], s: &[u8], node: NodeId, rec: &[u8]) -> usize
    requires { Entries s.now × IsChange rec.now × (draft_room ≤ length b.old) }
    ensures { Copied (value 2 (record_in rec.now).run) (broker_at (bytes 8 node.0) (entries_in s.now)) b.new result }
{
    let p = find_node(s, BROKER_REGISTRATION, node);
    let at = p.at;
    let end = p.end;
    if end <= at {
        return 0;
    }
    if !same_value(&s[at..end], rec, 2) {
        return 0;
    }
    copy_in(b, &s[at..end])
}

// Changes the broker of a record's node, where it is stored at the record's epoch.
pub fn change_broker(w: &mut [u8], b: &mut [u8], bounds: Bounds, rec: &[u8]) -> Bounds
    requires { Good w.old bounds × IsRecord rec.now × ((record_in rec.now).kind ≡ BrokerRegistrationChange) × (bounds.used + most_record ≤ length w.old) × (draft_room ≤ length b.old) }
    ensures { Made (plan BrokerRegistrationChange (record_in rec.now).run (held_in w.old bounds)) w.old bounds w.new result }
{
    let mid = bounds.mid;
    let n = copy_broker(b, &w[..mid], node_at(rec, NODE), rec);
    if n == 0 {
        return bounds;
    }
    let size = change(b, n, rec);
    set(w, bounds, &b[..size])
}
