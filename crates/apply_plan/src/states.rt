// What a record makes of a state: of where its entries stand, of its epoch and of its kraft version.
ghost use Rattle.std.specs.Prelude.{◌≡◌, ◌+◌, ◌≤◌, length};
ghost use Rattle.model.specs.Number.{number};
ghost use Rattle.model.specs.Run.{value};
ghost use Rattle.model.specs.Move.{bumped};
ghost use Rattle.model.specs.declared.Kind.TheVariants.{PartitionOffsetAdvance};
ghost use Rattle.keys.specs.Keys.{run_in};
ghost use Rattle.entries.specs.Entries.{IsRecord, record_in};
ghost use Rattle.apply_drafts.specs.Drafts.{draft_room};
ghost use Rattle.apply_work.specs.Work.{Good, most_record};
ghost use Rattle.apply_work.specs.declared.Tried.TheVariants.{Moved};
ghost use Rattle.apply_plan.specs.Plans.{Added};

use crate::epochs::bump;
use apply_offsets::{advance, overflows};
use apply_work::{Bounds, State, Tried};
use keys::number_at;
use model::refusals::OVERFLOW;

// The tag of the number that a kraft version or a features epoch sets.
const SET_TO: usize = 1;

// Entries that were moved, and the fixed parts as they were.
pub fn with_bounds(state: State, bounds: Bounds) -> Tried
    ensures { result ≡ Moved (record { bounds = bounds; epoch = state.epoch; kraft = state.kraft; offset = state.offset }) }
{
    Tried::Moved(State {
        bounds,
        epoch: state.epoch,
        kraft: state.kraft,
        offset: state.offset,
    })
}

// The same, and the epoch after a feature level.
pub fn with_level(state: State, bounds: Bounds) -> Tried
    ensures { result ≡ Moved (record { bounds = bounds; epoch = bumped state.epoch; kraft = state.kraft; offset = state.offset }) }
{
    Tried::Moved(State {
        bounds,
        epoch: bump(state.epoch),
        kraft: state.kraft,
        offset: state.offset,
    })
}

// The epoch that a record sets.
pub fn with_epoch(state: State, rec: &[u8]) -> Tried
    requires { (3 ≤ length rec.now) × (length (value 1 (run_in rec.now)) ≡ 8) }
    ensures { result ≡ Moved (record { bounds = state.bounds; epoch = number (value 1 (run_in rec.now)); kraft = state.kraft; offset = state.offset }) }
{
    let bounds = state.bounds;
    Tried::Moved(State {
        bounds,
        epoch: number_at(rec, SET_TO, 8),
        kraft: state.kraft,
        offset: state.offset,
    })
}

// The kraft version that a record sets.
pub fn with_kraft(state: State, rec: &[u8]) -> Tried
    requires { (3 ≤ length rec.now) × (length (value 1 (run_in rec.now)) ≡ 2) }
    ensures { result ≡ Moved (record { bounds = state.bounds; epoch = state.epoch; kraft = number (value 1 (run_in rec.now)); offset = state.offset }) }
{
    let bounds = state.bounds;
    Tried::Moved(State {
        bounds,
        epoch: state.epoch,
        kraft: number_at(rec, SET_TO, 2),
        offset: state.offset,
    })
}

// Adds an advance to the stored offset, where the sum stays in i64.
pub fn add_offset(w: &mut [u8], b: &mut [u8], state: State, rec: &[u8]) -> Tried
    requires { Good w.old state.bounds × IsRecord rec.now × ((record_in rec.now).kind ≡ PartitionOffsetAdvance) × (state.bounds.used + most_record ≤ length w.old) × (draft_room ≤ length b.old) }
    ensures { Added (record_in rec.now).run w.old state w.new result }
{
    let bounds = state.bounds;
    let mid = bounds.mid;
    if overflows(&w[..mid], rec) {
        return Tried::Refused(OVERFLOW);
    }
    with_bounds(state, advance(w, b, bounds, rec))
}
