// The exact test: whether a buffer is an image.
#![tactic(auto)]

ghost use Rattle.std.specs.Prelude.{◌≡◌, true, ◌&&◌, ◌+◌, ◌*◌, ◌≤◌, ◌<◌, length};
ghost use Rattle.model.specs.Choice.{is_some};
ghost use Rattle.model.specs.Key.{producer_key};
ghost use Rattle.model.specs.Map.{get, ascending};
ghost use Rattle.model.specs.Contents.{record_key, fixed_room};
ghost use Rattle.model.specs.Image.{is_image};
ghost use Rattle.laws_image.specs.Weight.{producer_size};
ghost use Rattle.entries.specs.Entries.{records_in, Entries};
ghost use Rattle.image.specs.Test.{reals_sound, groups_sound, entries_sound, producers_in, is_light};

use entries::seek;
use header::{HEAD_SIZE, header_ok, is_capacity, used_in};
use image_counts::counts_fit;
use image_entries::{all_groups, all_stored, tail_start};
use image_groups::groups_apart;
use image_ids::ids_apart;
use image_order::{all_read, ascends};
use model::kinds;
use shapes::all_rows;

// What the fixed parts of an image weigh, and the bytes of producer ids, which weigh nothing.
const FIXED_ROOM: usize = 144;

const PRODUCER_SIZE: usize = 36;

// Whether the real entries are such as Apply stores: each by itself, their keys, the topics' counts, the named ids.
fn reals_ok(s: &[u8]) -> bool
    requires { Entries s.now }
    ensures { result ≡ reals_sound (records_in s.now) }
{
    if !all_stored(s) {
        return false;
    }
    if !ascends(s) {
        return false;
    }
    if !counts_fit(s) {
        return false;
    }
    ids_apart(s)
}

// Whether the empty groups are such: each by itself, their keys, and that none has a member among the real entries.
fn groups_ok(s: &[u8], t: &[u8]) -> bool
    requires { Entries s.now × Entries t.now × (ascending record_key (records_in s.now) ≡ true) }
    ensures { result ≡ groups_sound (records_in s.now) (records_in t.now) }
{
    if !all_groups(t) {
        return false;
    }
    if !ascends(t) {
        return false;
    }
    groups_apart(s, t)
}

// Whether producer ids stand among the entries.
fn has_producer_ids(s: &[u8]) -> bool
    requires { Entries s.now }
    ensures { result ≡ is_some (get record_key producer_key (records_in s.now)) }
{
    let p = seek(s, &[kinds::PRODUCER_IDS, 0, 0]);
    p.at < p.end
}

// What entries weigh, by the bytes that they take and the real ones among them.
pub fn weight_of(reals: &[u8], used: usize) -> usize
    requires { Entries reals.now × (used < 4294967296) }
    ensures { result + producer_size * producers_in (records_in reals.now) ≡ fixed_room + used }
{
    let size = FIXED_ROOM + used;
    if has_producer_ids(reals) {
        return size - PRODUCER_SIZE;
    }
    size
}

// Whether entries are such as an image of a capacity holds.
fn entries_ok(s: &[u8], capacity: usize) -> bool
    requires { Entries s.now × (length s.now ≤ 65536) × (capacity ≤ 65536) }
    ensures { result ≡ entries_sound s.now && is_light s.now capacity }
{
    let mid = tail_start(s);
    if !reals_ok(&s[..mid]) {
        return false;
    }
    if !groups_ok(&s[..mid], &s[mid..]) {
        return false;
    }
    weight_of(&s[..mid], s.len()) <= capacity
}

// Whether a buffer is an image.
pub fn is_image(b: &[u8]) -> bool
    ensures { result ≡ is_image b.now }
{
    if !is_capacity(b.len()) {
        return false;
    }
    if !header_ok(b) {
        return false;
    }
    let used = used_in(b);
    let rows = all_rows();
    if !all_read(&rows, &b[HEAD_SIZE..used]) {
        return false;
    }
    entries_ok(&b[HEAD_SIZE..used], b.len())
}
