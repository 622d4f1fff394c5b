// The rate of a node: what a config of it says, else what the default node's says.
#![tactic(auto)]

ghost use Rattle.std.specs.Prelude.{◌≡◌, ◌≤◌, length};
ghost use Rattle.model.specs.Lookup.{default_node, config_at, throttle};
ghost use Rattle.fields.specs.Fields.{held, Within};
ghost use Rattle.entries.specs.Entries.{Entries};
ghost use Rattle.entries.specs.Held.{entries_in};
ghost use Rattle.lookup_rates.specs.Rates.{rated};
ghost use Rattle.lookup_throttles.specs.Throttles.{rate_by};

use fields::{Cursor, Found};
use find::find;
use lookup_rates::{Rate, rate_of};
use model::NodeId;
use model::kinds::BROKER_CONFIG;
use reader::field;

const VALUE: usize = 3;

// The node whose configs are every node's.
const DEFAULT: u64 = 0xffff_ffff_ffff_ffff;

// The value of a node's config of a name.
fn config_at(s: &[u8], node: NodeId, name: &[u8]) -> Found
    requires { Entries s.now × (length name.now ≤ 255) }
    ensures { (held s.now result ≡ config_at node.0 name.now (entries_in s.now)) × Within (length s.now) result }
{
    let mut id = [0; 8];
    wire::put(&mut id, 0, 8, node.0);
    let p = find(s, BROKER_CONFIG, &id, name);
    let at = p.at;
    let end = p.end;
    if end <= at {
        return Found::Missing;
    }
    field(
        s,
        Cursor {
            at: at + 3,
            to: end,
        },
        VALUE,
    )
}

// The rate by the default node's config.
fn default_rate(s: &[u8], name: &[u8]) -> Rate
    requires { Entries s.now × (length name.now ≤ 255) }
    ensures { rated result ≡ rate_by (config_at default_node name.now (entries_in s.now)) }
{
    match config_at(s, NodeId(DEFAULT), name) {
        Found::Part { start, len } => {
            let end = start + len;
            rate_of(&s[start..end])
        }
        Found::Missing => Rate::None,
    }
}

// The rate of a node by the config of a name: its own entry's, else the default node's. An own value that does not read is none.
pub fn rate_in(s: &[u8], node: NodeId, name: &[u8]) -> Rate
    requires { Entries s.now × (length name.now ≤ 255) }
    ensures { rated result ≡ throttle node.0 name.now (entries_in s.now) }
{
    match config_at(s, node, name) {
        Found::Part { start, len } => {
            let end = start + len;
            rate_of(&s[start..end])
        }
        Found::Missing => default_rate(s, name),
    }
}
