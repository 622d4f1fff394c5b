// A record's moves on a work array, or a refusal. The image itself is not changed.
#![tactic(auto)]

ghost use Rattle.std.specs.Prelude.{◌≡◌, true, ◌≤◌, length};
ghost use Rattle.model.specs.Contents.{key};
ghost use Rattle.model.specs.Image.{is_image, contents_of};
ghost use Rattle.model.specs.Apply.{apply as applied};
ghost use Rattle.laws.specs.Map.{Asc};
ghost use Rattle.find.specs.Logged.{IsLogged, logged_in};
ghost use Rattle.apply_drafts.specs.Drafts.{draft_room};
ghost use Rattle.apply_work.specs.Work.{Good, held_in, state_in};
ghost use Rattle.apply_step.specs.Step.{work_room, Holding, IsLight, outcome, StillHolding};

use apply_plan::make;
use apply_work::{Bounds, State, Tried, load};
use header::{epoch_in, kraft_in, offset_in};
use image::weight_of;
use model::refusals::FULL;

// Whether the contents of a work array, with any fixed parts, weigh no more than a capacity.
fn is_light(w: &[u8], bounds: Bounds, capacity: usize) -> bool
    requires { Good w.now bounds × Asc key (held_in w.now bounds) × (capacity ≤ 65536) × (length w.now ≡ work_room) }
    ensures { IsLight w.now bounds capacity result }
{
    let mid = bounds.mid;
    weight_of(&w[..mid], bounds.used) <= capacity
}

// Makes a record's moves, where the sum of an advance stays in i64 and there is room for what they make. After a refusal the work array is of no use.
pub fn step(
    w: &mut [u8],
    a: &mut [u8],
    b: &mut [u8],
    state: State,
    capacity: usize,
    rec: &[u8],
) -> Tried
    requires { Holding w.old state capacity × IsLogged rec.now × (length w.old ≡ work_room) × (draft_room ≤ length a.old) × (draft_room ≤ length b.old) }
    ensures { (outcome w.new result ≡ applied capacity (logged_in rec.now) (state_in w.old state)) × StillHolding w.new capacity result }
{
    match make(w, a, b, state, rec) {
        Tried::Refused(number) => Tried::Refused(number),
        Tried::Moved(next) => {
            if !is_light(w, next.bounds, capacity) {
                return Tried::Refused(FULL);
            }
            Tried::Moved(next)
        }
    }
}

// The same on the contents of an image.
pub fn try_in(w: &mut [u8], a: &mut [u8], b: &mut [u8], image: &[u8], rec: &[u8]) -> Tried
    requires { (is_image image.now ≡ true) × IsLogged rec.now × (length w.old ≡ work_room) × (draft_room ≤ length a.old) × (draft_room ≤ length b.old) }
    ensures { (outcome w.new result ≡ applied (length image.now) (logged_in rec.now) (contents_of image.now)) × StillHolding w.new (length image.now) result }
{
    let bounds = load(w, image);
    let state = State {
        bounds,
        epoch: epoch_in(image),
        kraft: kraft_in(image),
        offset: offset_in(image),
    };
    step(w, a, b, state, image.len(), rec)
}
