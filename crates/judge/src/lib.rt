// What Validate says of a record against an image's real entries.
#![tactic(auto)]

mod brokers;
mod lookups;
mod names;
mod partitions;
mod proposals;
mod topics;
mod values;

ghost use Rattle.std.specs.Prelude.{◌≡◌, map, ◌≤◌, length};
ghost use Rattle.model.specs.Image.{entry_of};
ghost use Rattle.model.specs.Validate.{judge as judge_of};
ghost use Rattle.keys.specs.Keys.{run_in};
ghost use Rattle.entries.specs.Entries.{records_in, Entries};
ghost use Rattle.find.specs.Logged.{IsLogged, logged_in};
ghost use Rattle.judge.specs.Judge.{empty_scope};

use brokers::{producer_fault, unknown_controller};
use find::at_epoch;
use keys::{node_at, value_at};
use model::kinds;
use model::refusals::{EMPTY_SCOPE, STALE_CHANGE, STALE_UNREGISTRATION, UNKNOWN_KIND};
use proposals::proposal_fault;
use topics::{topic_fault, unknown_nested, unknown_partition, unknown_topic};
use values::unless;

// Whether a freeze's scope is empty, a literal or a prefix.
fn empty_scope(rec: &[u8]) -> bool
    requires { 3 ≤ length rec.now }
    ensures { result ≡ empty_scope (run_in rec.now) }
{
    let p = value_at(rec, 1);
    p.start == p.end
}

// The first refusal of a record that Read accepts, 0 where there is none.
pub fn judge(s: &[u8], rec: &[u8]) -> u8
    requires { Entries s.now × IsLogged rec.now }
    ensures { result ≡ judge_of (logged_in rec.now) (map entry_of (records_in s.now)) }
{
    match rec[0] {
        kinds::TOPIC => topic_fault(s, rec),
        kinds::PARTITION => unknown_topic(s, rec),
        kinds::BROKER_REGISTRATION => 0,
        kinds::DELETE_TOPIC => unknown_topic(s, rec),
        kinds::TOPIC_CONFIG => unknown_topic(s, rec),
        kinds::BROKER_CONFIG => 0,
        kinds::CLIENT_QUOTA => 0,
        kinds::PRODUCER_IDS => producer_fault(s, rec),
        kinds::UNREGISTER_BROKER => unless(at_epoch(s, node_at(rec, 1), rec), STALE_UNREGISTRATION),
        kinds::KRAFT_VERSION => 0,
        kinds::FEATURE_LEVEL => 0,
        kinds::CLIENT_METRICS_CONFIG => 0,
        kinds::FEATURES_EPOCH => 0,
        kinds::PARTITION_DIR_ASSIGNMENT => 0,
        kinds::PARTITION_OFFSET_ADVANCE => 0,
        kinds::GROUP_CONFIG => 0,
        kinds::CONTROLLER_REGISTRATION => 0,
        kinds::TOPIC_FREEZE => unless(!empty_scope(rec), EMPTY_SCOPE),
        kinds::BREAK_GLASS_PROPOSAL => proposal_fault(s, rec),
        kinds::DELETE_BREAK_GLASS_PROPOSAL => 0,
        kinds::PARTITION_ELR => unknown_partition(s, rec),
        kinds::PARTITION_RECOVERY => unknown_partition(s, rec),
        kinds::PARTITION_UPDATE => unknown_nested(s, rec),
        kinds::BROKER_REGISTRATION_CHANGE => unless(
            at_epoch(s, node_at(rec, 1), rec),
            STALE_CHANGE,
        ),
        kinds::UNREGISTER_CONTROLLER => unknown_controller(s, node_at(rec, 1)),
        0 | 26..=255 => UNKNOWN_KIND,
    }
}
