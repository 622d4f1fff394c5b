// Records of brokers, of controllers and of producer ids, against the stored ones.
ghost use Rattle.std.specs.Prelude.{◌≡◌, ◌≤◌, length};
ghost use Rattle.model.specs.Choice.{or_then, unless as unless_of, is_some};
ghost use Rattle.model.specs.Number.{number, bytes, place};
ghost use Rattle.model.specs.Run.{value};
ghost use Rattle.model.specs.Key.{node_key};
ghost use Rattle.model.specs.Map.{get};
ghost use Rattle.model.specs.Contents.{key};
ghost use Rattle.model.specs.Move.{broker_at, at_epoch, stored_next, is_above};
ghost use Rattle.model.specs.declared.Kind.TheVariants.{ControllerRegistration};
ghost use Rattle.keys.specs.Keys.{run_in};
ghost use Rattle.entries.specs.Entries.{Entries};
ghost use Rattle.entries.specs.Held.{entries_in};

use crate::values::unless;
use find::{at_epoch, find_node, stored_next};
use keys::{node_at, place_in};
use model::NodeId;
use model::kinds::CONTROLLER_REGISTRATION;
use model::refusals::{NOT_ABOVE, STALE_PRODUCER, UNKNOWN_CONTROLLER};

// Refuses where the controller of a node is not stored.
pub fn unknown_controller(s: &[u8], node: NodeId) -> u8
    requires { Entries s.now }
    ensures { result ≡ unless_of (is_some (get key (node_key ControllerRegistration (bytes 8 node.0)) (entries_in s.now))) 10 }
{
    let p = find_node(s, CONTROLLER_REGISTRATION, node);
    unless(p.at < p.end, UNKNOWN_CONTROLLER)
}

// Refuses producer ids whose next one is not above the stored, and then those of an unknown broker or of another epoch.
pub fn producer_fault(s: &[u8], rec: &[u8]) -> u8
    requires { Entries s.now × (3 ≤ length rec.now) × (length (value 1 (run_in rec.now)) ≡ 8) × (length (value 3 (run_in rec.now)) ≡ 8) }
    ensures { result ≡ or_then (unless_of (is_above 8 (value 3 (run_in rec.now)) (stored_next (entries_in s.now))) 11) (unless_of (at_epoch (value 2 (run_in rec.now)) (broker_at (value 1 (run_in rec.now)) (entries_in s.now))) 12) }
{
    if place_in(rec, 3, 8) <= stored_next(s) {
        return NOT_ABOVE;
    }
    unless(at_epoch(s, node_at(rec, 1), rec), STALE_PRODUCER)
}
