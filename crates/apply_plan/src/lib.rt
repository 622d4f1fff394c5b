// The moves of a record, made on a work array and its fixed parts: the kind number decides.
#![tactic(auto)]

mod epochs;
mod members;
mod states;
mod tests;

ghost use Rattle.std.specs.Prelude.{[], ◌∷◌, ◌≤◌, length};
ghost use Rattle.model.specs.Run.{value};
ghost use Rattle.model.specs.Move.{drop_m};
ghost use Rattle.keys.specs.Keys.{run_in};
ghost use Rattle.find.specs.Found.{Query, query_key};
ghost use Rattle.find.specs.Logged.{logged_in};
ghost use Rattle.apply_drafts.specs.Drafts.{draft_room};
ghost use Rattle.apply_work.specs.Work.{Good, Made};
ghost use Rattle.apply_plan.specs.Plans.{Ready, Planned};

use apply_brokers::change_broker;
use apply_directories::assign;
use apply_moves::{erase_named, set};
use apply_topics::{delete_topic, put_partition, put_topic};
use apply_updates::update;
use apply_work::{Bounds, State, Tried};
use keys::{node_at, value_at};
use members::{member, quota};
use model::kinds;
use model::refusals::UNKNOWN_KIND;
use states::{add_offset, with_bounds, with_epoch, with_kraft, with_level};
use tests::{erase_node, producers, unregister};

// Takes the entry of a kind that a record's first field names out.
fn erase_first(w: &mut [u8], bounds: Bounds, kind: u8, rec: &[u8]) -> Bounds
    requires { Good w.old bounds × (3 ≤ length rec.now) × Query kind (value 1 (run_in rec.now)) [] }
    ensures { Made (drop_m (query_key kind (value 1 (run_in rec.now)) []) ∷ []) w.old bounds w.new result }
{
    let p = value_at(rec, 1);
    let start = p.start;
    let end = p.end;
    erase_named(w, bounds, kind, &rec[start..end])
}

// Makes the moves of a record that Read accepts, or refuses it: 17, where an offset's sum leaves i64. `a` and `b` are lent to build records in.
pub fn make(w: &mut [u8], a: &mut [u8], b: &mut [u8], state: State, rec: &[u8]) -> Tried
    requires { Ready w.old state.bounds rec.now × (draft_room ≤ length a.old) × (draft_room ≤ length b.old) }
    ensures { Planned (logged_in rec.now) w.old state w.new result }
{
    let bounds = state.bounds;
    match rec[0] {
        kinds::TOPIC => with_bounds(state, put_topic(w, a, bounds, rec)),
        kinds::PARTITION => with_bounds(state, put_partition(w, bounds, rec)),
        kinds::BROKER_REGISTRATION => with_bounds(state, set(w, bounds, rec)),
        kinds::DELETE_TOPIC => with_bounds(state, delete_topic(w, bounds, rec)),
        kinds::TOPIC_CONFIG => with_bounds(state, set(w, bounds, rec)),
        kinds::BROKER_CONFIG => with_bounds(state, member(w, a, bounds, rec)),
        kinds::CLIENT_QUOTA => with_bounds(state, quota(w, a, b, bounds, rec)),
        kinds::PRODUCER_IDS => with_bounds(state, producers(w, bounds, rec)),
        kinds::UNREGISTER_BROKER => with_bounds(state, unregister(w, bounds, rec)),
        kinds::KRAFT_VERSION => with_kraft(state, rec),
        kinds::FEATURE_LEVEL => with_level(state, set(w, bounds, rec)),
        kinds::CLIENT_METRICS_CONFIG => with_bounds(state, set(w, bounds, rec)),
        kinds::FEATURES_EPOCH => with_epoch(state, rec),
        kinds::PARTITION_DIR_ASSIGNMENT => with_bounds(state, assign(w, a, bounds, rec)),
        kinds::PARTITION_OFFSET_ADVANCE => add_offset(w, a, state, rec),
        kinds::GROUP_CONFIG => with_bounds(state, set(w, bounds, rec)),
        kinds::CONTROLLER_REGISTRATION => with_bounds(state, set(w, bounds, rec)),
        kinds::TOPIC_FREEZE => with_bounds(state, set(w, bounds, rec)),
        kinds::BREAK_GLASS_PROPOSAL => with_bounds(state, set(w, bounds, rec)),
        kinds::DELETE_BREAK_GLASS_PROPOSAL => with_bounds(
            state,
            erase_first(w, bounds, kinds::BREAK_GLASS_PROPOSAL, rec),
        ),
        kinds::PARTITION_ELR => with_bounds(state, set(w, bounds, rec)),
        kinds::PARTITION_RECOVERY => with_bounds(state, set(w, bounds, rec)),
        kinds::PARTITION_UPDATE => with_bounds(state, update(w, a, bounds, rec)),
        kinds::BROKER_REGISTRATION_CHANGE => with_bounds(state, change_broker(w, a, bounds, rec)),
        kinds::UNREGISTER_CONTROLLER => with_bounds(
            state,
            erase_node(w, bounds, kinds::CONTROLLER_REGISTRATION, node_at(rec, 1)),
        ),
        0 | 26..=255 => Tried::Refused(UNKNOWN_KIND),
    }
}
