// The stored broker of a node, at an epoch, and the stored next producer id.
ghost use Rattle.std.specs.Prelude.{◌≡◌, ◌≤◌, length};
ghost use Rattle.model.specs.Number.{number, bytes, place};
ghost use Rattle.model.specs.Run.{value};
ghost use Rattle.model.specs.Move.{broker_at, at_epoch, stored_next};
ghost use Rattle.keys.specs.Keys.{run_in};
ghost use Rattle.entries.specs.Entries.{Entries};
ghost use Rattle.entries.specs.Held.{entries_in};

use crate::{find, find_node};
use keys::{place_in, same_value};
use model::NodeId;
use model::kinds::{BROKER_REGISTRATION, PRODUCER_IDS};

// Zero's place among signed numbers of eight bytes.
const ZERO: u64 = 0x8000_0000_0000_0000;

// Whether the broker of a node is stored, at the epoch of a record's second field.
pub fn at_epoch(s: &[u8], node: NodeId, rec: &[u8]) -> bool
    requires { Entries s.now × (3 ≤ length rec.now) }
    ensures { result ≡ at_epoch (value 2 (run_in rec.now)) (broker_at (bytes 8 node.0) (entries_in s.now)) }
{
    let p = find_node(s, BROKER_REGISTRATION, node);
    let at = p.at;
    let end = p.end;
    if end <= at {
        return false;
    }
    same_value(&s[at..end], rec, 2)
}

// The stored next producer id by its place among signed numbers; nothing stored counts as 0.
pub fn stored_next(s: &[u8]) -> u64
    requires { Entries s.now }
    ensures { result ≡ place 8 (number (stored_next (entries_in s.now))) }
{
    let p = find(s, PRODUCER_IDS, b"", b"");
    let at = p.at;
    let end = p.end;
    if end <= at {
        return ZERO;
    }
    place_in(&s[at..end], 3, 8)
}
