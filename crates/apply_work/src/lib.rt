// The work array of Apply: an image's real entries and its empty groups, back to back in a lent buffer.
#![tactic(auto)]

mod layout;

ghost use Rattle.std.specs.Prelude.{◌≡◌, true, map, ◌+◌, ◌≤◌, length};
ghost use Rattle.model.specs.Map.{put as put_in, remove as remove_in, keep};
ghost use Rattle.model.specs.Contents.{kept, record_key};
ghost use Rattle.model.specs.Move.{apart_from};
ghost use Rattle.model.specs.Image.{head_size, used_in, entry_of, contents_of, is_image};
ghost use Rattle.keys.specs.Keys.{key_in, Keyed};
ghost use Rattle.entries.specs.Entries.{IsRecord, record_in};
ghost use Rattle.apply_work.specs.Work.{reals_in, groups_in, Good};

use entries::{put, remove, remove_topic};
use header::{HEAD_SIZE, used_in};
use image_entries::tail_start;
pub use layout::lay;

// Where the entries stand in a work array: the real ones up to `mid`, the empty groups from there up to `used`.
#[derive(Clone, Copy)]
pub struct Bounds {
    pub mid: usize,
    pub used: usize,
}

// What a work array holds: where its entries stand, and the fixed parts.
#[derive(Clone, Copy)]
pub struct State {
    pub bounds: Bounds,
    pub epoch: u64,
    pub kraft: u64,
    pub offset: u64,
}

// A record's refusal, or the state after its moves.
#[derive(Clone, Copy)]
pub enum Tried {
    Refused(u8),
    Moved(State),
}

// Puts a record among the real entries.
pub fn put_real(w: &mut [u8], bounds: Bounds, rec: &[u8]) -> Bounds
    requires { Good w.old bounds × IsRecord rec.now × (kept (entry_of (record_in rec.now)) ≡ record_in rec.now) × (bounds.used + length rec.now ≤ length w.old) }
    ensures { Good w.new result × (reals_in w.new result ≡ put_in record_key (record_in rec.now) (reals_in w.old bounds)) × (groups_in w.new result ≡ groups_in w.old bounds) × (result.used ≤ bounds.used + length rec.now) }
{
    let mid = bounds.mid;
    let used = bounds.used;
    let n = put(w, 0, mid, used, rec);
    Bounds {
        mid: n - (used - mid),
        used: n,
    }
}

// Takes the real entry of a probe's key out.
pub fn drop_real(w: &mut [u8], bounds: Bounds, probe: &[u8]) -> Bounds
    requires { Good w.old bounds × Keyed probe.now }
    ensures { Good w.new result × (reals_in w.new result ≡ remove_in record_key (key_in probe.now) (reals_in w.old bounds)) × (groups_in w.new result ≡ groups_in w.old bounds) × (result.used ≤ bounds.used) }
{
    let mid = bounds.mid;
    let used = bounds.used;
    let left = remove(w, 0, mid, used, probe);
    Bounds {
        mid: left - (used - mid),
        used: left,
    }
}

// Takes the real entries under a topic out.
pub fn drop_topic(w: &mut [u8], bounds: Bounds, name: &[u8]) -> Bounds
    requires { Good w.old bounds }
    ensures { Good w.new result × (reals_in w.new result ≡ keep record_key (apart_from name.now) (reals_in w.old bounds)) × (groups_in w.new result ≡ groups_in w.old bounds) × (result.used ≤ bounds.used) }
{
    let mid = bounds.mid;
    let used = bounds.used;
    let left = remove_topic(w, 0, mid, used, name);
    Bounds {
        mid: left - (used - mid),
        used: left,
    }
}

// Puts a record among the empty groups.
pub fn put_group(w: &mut [u8], bounds: Bounds, rec: &[u8]) -> Bounds
    requires { Good w.old bounds × IsRecord rec.now × (bounds.used + length rec.now ≤ length w.old) }
    ensures { Good w.new result × (reals_in w.new result ≡ reals_in w.old bounds) × (groups_in w.new result ≡ put_in record_key (record_in rec.now) (groups_in w.old bounds)) × (result.used ≤ bounds.used + length rec.now) }
{
    let mid = bounds.mid;
    let used = bounds.used;
    let n = put(w, mid, used, used, rec);
    Bounds { mid, used: n }
}

// Takes the empty group of a probe's key out.
pub fn drop_group(w: &mut [u8], bounds: Bounds, probe: &[u8]) -> Bounds
    requires { Good w.old bounds × Keyed probe.now }
    ensures { Good w.new result × (reals_in w.new result ≡ reals_in w.old bounds) × (groups_in w.new result ≡ remove_in record_key (key_in probe.now) (groups_in w.old bounds)) × (result.used ≤ bounds.used) }
{
    let mid = bounds.mid;
    let used = bounds.used;
    let left = remove(w, mid, used, used, probe);
    Bounds { mid, used: left }
}

// Copies the entries of an image to the start of a work array.
pub fn load(w: &mut [u8], image: &[u8]) -> Bounds
    requires { (is_image image.now ≡ true) × (length image.now ≤ length w.old) }
    ensures { Good w.new result × (map entry_of (reals_in w.new result) ≡ (contents_of image.now).real) × (groups_in w.new result ≡ (contents_of image.now).empties) × (result.used + head_size ≡ used_in image.now) }
{
    let used = used_in(image);
    let reals = tail_start(&image[HEAD_SIZE..used]);
    wire::copy(w, 0, &image[HEAD_SIZE..used]);
    Bounds {
        mid: reals,
        used: used - HEAD_SIZE,
    }
}
