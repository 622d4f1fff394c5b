// Where two controllers' recordings part: both runs are applied side by side, each to its own image.
#![tactic(auto)]

ghost use Rattle.std.specs.Prelude.{◌≡◌, true, length};
ghost use Rattle.model.specs.Image.{contents_of};
ghost use Rattle.model.specs.Recordings.{same_snapshots, parting_of, compared_as, compare_of};
ghost use Rattle.model.specs.Answers.{compared_reply};
ghost use Rattle.recordings.specs.Turns.{Sound, Fresh, AdvancedAs, Shot, SharedAs, AskedAs, ClosedAs, TurnAs};

use apply::apply_later;
use header::{is_capacity, open};
use model::answers::{Answer, Compared};
use model::refusals::NO_IMAGE;
use records::read_logged;
use snapshot::emit_records;

// How long the log offset's record is, with which a snapshot starts.
const OFFSET_SIZE: usize = 14;

// In place of a refusal's number where a run has ended.
const ENDED: u8 = 0;

// How a run stands: it goes on with a record of so many bytes; or it is over, by 0 where it has ended, else by the number of its refusal.
#[derive(Clone, Copy)]
enum Stand {
    On(usize),
    Over(u8),
}

// Applies the next record of a run to an image, at its log offset. A run that is over changes nothing.
fn advance(image: &mut [u8], offset: u64, run: &[u8]) -> Stand
    requires { Sound image.old }
    ensures { AdvancedAs image.old offset run.now image.new result }
{
    if run.len() == 0 {
        return Stand::Over(ENDED);
    }
    match read_logged(run) {
        Answer::Refused(number) => Stand::Over(number),
        Answer::Used(n) => {
            let number = apply_later(image, offset, &run[..n]);
            if number != 0 {
                return Stand::Over(number);
            }
            Stand::On(n)
        }
    }
}

// Writes the snapshot of an image to an array that has room for any. How long it is.
fn put_snapshot(out: &mut [u8], image: &[u8]) -> usize
    requires { Sound image.now × (length out.old ≡ 65536) }
    ensures { Shot image.now out.new result }
{
    match emit_records(image, out) {
        Answer::Used(n) => n,
        Answer::Refused(number) => OFFSET_SIZE,
    }
}

// Whether the snapshots of two images are the same apart from the offset.
fn same_snapshots(first: &[u8], second: &[u8]) -> bool
    requires { Sound first.now × Sound second.now }
    ensures { result ≡ same_snapshots (contents_of first.now) (contents_of second.now) }
{
    let mut x = [0; 65536];
    let mut y = [0; 65536];
    let n = put_snapshot(&mut x, first);
    let m = put_snapshot(&mut y, second);
    wire::same(&x[OFFSET_SIZE..n], &y[OFFSET_SIZE..m])
}

// How many bytes the record has that was applied to both images; or nothing was changed.
#[derive(Clone, Copy)]
enum Shared {
    Moved(usize),
    Nothing,
}

// Applies the next record to two images that are equal bytes, where both runs go on with the same bytes: one try serves both.
fn advance_both(
    first: &mut [u8],
    second: &mut [u8],
    offset: u64,
    one: &[u8],
    other: &[u8],
) -> Shared
    requires { Sound first.old × (second.old ≡ first.old) }
    ensures { SharedAs first.old offset one.now other.now first.new second.new result }
{
    match read_logged(one) {
        Answer::Refused(number) => Shared::Nothing,
        Answer::Used(n) => {
            if other.len() < n {
                return Shared::Nothing;
            }
            if !wire::same(&one[..n], &other[..n]) {
                return Shared::Nothing;
            }
            if apply_later(first, offset, &one[..n]) != 0 {
                return Shared::Nothing;
            }
            wire::copy(second, 0, first);
            Shared::Moved(n)
        }
    }
}

// What a turn comes to: both runs go on, by so many bytes each, and whether their images are known to be equal bytes; or they part or agree, and
// nothing is changed.
#[derive(Clone, Copy)]
enum Turn {
    On(usize, usize, bool),
    Parted,
    Agree,
}

// The first run goes on, to the image that `moved` is: asks the second one, and moves both images where it goes on too.
fn ask_second(
    first: &mut [u8],
    second: &mut [u8],
    moved: &[u8],
    offset: u64,
    n: usize,
    other: &[u8],
) -> Turn
    requires { Sound second.old × (length moved.now ≡ length first.old) }
    ensures { AskedAs first.old second.old moved.now offset n other.now first.new second.new result }
{
    match advance(second, offset, other) {
        Stand::On(m) => {
            wire::copy(first, 0, moved);
            Turn::On(n, m, wire::same(first, second))
        }
        Stand::Over(number) => Turn::Parted,
    }
}

// The first run is over: whether the second one is, by the same number. It is asked on a copy.
fn close(second: &[u8], spare: &mut [u8], offset: u64, number: u8, other: &[u8]) -> Turn
    requires { Sound second.now × (length second.now ≡ length spare.old) }
    ensures { ClosedAs second.now offset number other.now result }
{
    wire::copy(spare, 0, second);
    match advance(spare, offset, other) {
        Stand::On(m) => Turn::Parted,
        Stand::Over(there) => {
            if number == there {
                return Turn::Agree;
            }
            Turn::Parted
        }
    }
}

// A turn of runs whose images or next records differ. The first run is asked on a copy: its image moves only where both go on.
fn turn_apart(
    first: &mut [u8],
    second: &mut [u8],
    spare: &mut [u8],
    offset: u64,
    one: &[u8],
    other: &[u8],
) -> Turn
    requires { Sound first.old × Sound second.old × (length second.old ≡ length first.old) × (length spare.old ≡ length first.old) }
    ensures { TurnAs first.old second.old offset one.now other.now first.new second.new result }
{
    if !same_snapshots(first, second) {
        return Turn::Parted;
    }
    wire::copy(spare, 0, first);
    match advance(spare, offset, one) {
        Stand::On(n) => ask_second(first, second, spare, offset, n, other),
        Stand::Over(number) => close(second, spare, offset, number, other),
    }
}

// A turn of both runs: their snapshots are compared, unless the images are known to be equal bytes, and their next records are applied.
fn turn_both(
    first: &mut [u8],
    second: &mut [u8],
    spare: &mut [u8],
    equal: bool,
    offset: u64,
    one: &[u8],
    other: &[u8],
) -> Turn
    requires { Sound first.old × Sound second.old × (length second.old ≡ length first.old) × (length spare.old ≡ length first.old) × (equal ≡ true → second.old ≡ first.old) }
    ensures { TurnAs first.old second.old offset one.now other.now first.new second.new result }
{
    if !equal {
        return turn_apart(first, second, spare, offset, one, other);
    }
    match advance_both(first, second, offset, one, other) {
        Shared::Moved(n) => Turn::On(n, n, true),
        Shared::Nothing => turn_apart(first, second, spare, offset, one, other),
    }
}

// Applies both runs to fresh images, record by record, up to where they part or both are over. `spare` is as long as they are.
fn run(first: &mut [u8], second: &mut [u8], spare: &mut [u8], one: &[u8], other: &[u8]) -> Compared
    requires { Fresh first.old × (second.old ≡ first.old) × (length spare.old ≡ length first.old) }
    ensures result_value { compared_reply result ≡ (compared_as (length first.old) (parting_of (length first.old) one.now other.now)).reply }
    ensures first_after { first.new ≡ (compared_as (length first.old) (parting_of (length first.old) one.now other.now)).first }
    ensures second_after { second.new ≡ (compared_as (length first.old) (parting_of (length first.old) one.now other.now)).second }
{
    let mut k = 0;
    let mut at = 0;
    let mut to = 0;
    let mut equal = true;
    loop {
        match turn_both(first, second, spare, equal, k, &one[at..], &other[to..]) {
            Turn::On(n, m, same) => {
                k += 1;
                at = at + n;
                to = to + m;
                equal = same;
            }
            Turn::Parted => {
                return Compared::Parted(k);
            }
            Turn::Agree => {
                return Compared::Agree(k);
            }
        }
    }
}

// Where two runs of records part, from fresh images of equal capacity on: the least count of applied records after which the snapshots differ apart from
// the offset, or the runs stand differently. Both buffers end as the images after that count, or after the count that they agree up to, whatever they held.
// 1 on a capacity or on unequal ones, and nothing is changed.
pub fn compare(first: &mut [u8], second: &mut [u8], one: &[u8], other: &[u8]) -> Compared
    ensures result_value { compared_reply result ≡ (compare_of first.old second.old one.now other.now).reply }
    ensures first_after { first.new ≡ (compare_of first.old second.old one.now other.now).first }
    ensures second_after { second.new ≡ (compare_of first.old second.old one.now other.now).second }
{
    let n = first.len();
    if !is_capacity(n) {
        return Compared::Refused(NO_IMAGE);
    }
    if n != second.len() {
        return Compared::Refused(NO_IMAGE);
    }
    open(first);
    open(second);
    let mut spare = [0; 65536];
    run(first, second, &mut spare[..n], one, other)
}
