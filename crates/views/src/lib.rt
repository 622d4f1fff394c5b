// A viewer's lookups: of a topic, a partition and a freeze, by a name that begins with one of its prefixes. A viewer has up to 8 prefixes, in any
// order; each is a two-byte length and its bytes.
#![tactic(auto)]

ghost use Rattle.std.specs.Prelude.{◌≡◌};
ghost use Rattle.model.specs.Answers.{replied};
ghost use Rattle.model.specs.View.{prefixes_in, prefix_fault, visible, is_seen, viewer_fault, query_fault, view_topic_of, view_partition_of, view_freeze_of};
ghost use Rattle.keys.specs.Keys.{key_in, Keyed};

use find::reals_end;
use header::HEAD_SIZE;
use image::is_image;
use keys::{rank_of, value_at};
use lookup::entry;
use lookup_freezes::emit_freeze;
use model::answers::Answer;
use model::kinds::{PARTITION, TOPIC};
use model::refusals::{NO_IMAGE, NOT_VISIBLE};
use names::{Checked, Name, check, name_at};
use shape_faults::text_fault;
use wire::begins_with;

// The most prefixes of a viewer.
const PREFIX_LIMIT: usize = 8;

// The most bytes of a name.
const NAME_LIMIT: usize = 255;

// Whether a name begins with one of the prefixes of a list that passed its checks.
fn is_visible(list: &[u8], name: &[u8]) -> bool
    requires { prefix_fault list.now ≡ 0 }
    ensures { result ≡ visible (prefixes_in list.now) name.now }
{
    let mut at = 0;
    while at < list.len() {
        match name_at(list, at) {
            Name::Torn => {
                return false;
            }
            Name::At(start, end) => {
                if begins_with(name, &list[start..end]) {
                    return true;
                }
                at = end;
            }
        }
    }
    false
}

// Whether an entry stands under a visible name. The groups under topics have the ranks from 4 to 9, and there the first field is the topic's name.
pub fn is_seen(e: &[u8], list: &[u8]) -> bool
    requires { Keyed e.now × (prefix_fault list.now ≡ 0) }
    ensures { result ≡ is_seen (prefixes_in list.now) (key_in e.now) }
{
    let rank = rank_of(e[0]);
    if rank < 4 {
        return false;
    }
    if 9 < rank {
        return false;
    }
    let p = value_at(e, 1);
    let start = p.start;
    let end = p.end;
    is_visible(list, &e[start..end])
}

// What every operation of a viewer refuses first: no image, then the first fault of its prefixes. 0 for none.
pub fn viewer_fault(image: &[u8], list: &[u8]) -> u8
    ensures { result ≡ viewer_fault image.now list.now }
{
    if !is_image(image) {
        return NO_IMAGE;
    }
    match check(list, PREFIX_LIMIT, false) {
        Checked::Refused(number) => number,
        Checked::Names(_, _) => 0,
    }
}

// What a lookup by name refuses: that, then the name's own faults, then a name that is not visible, whether or not it exists.
fn query_fault(image: &[u8], list: &[u8], name: &[u8]) -> u8
    ensures { result ≡ query_fault image.now list.now name.now }
{
    let viewer = viewer_fault(image, list);
    if viewer != 0 {
        return viewer;
    }
    let f = text_fault(name, NAME_LIMIT);
    if f != 0 {
        return f;
    }
    if !is_visible(list, name) {
        return NOT_VISIBLE;
    }
    0
}

// The topic of a visible name.
pub fn view_topic(image: &[u8], list: &[u8], name: &[u8], out: &mut [u8]) -> Answer
    ensures result_value { replied result ≡ (view_topic_of image.now list.now name.now out.old).reply }
    ensures out_after { out.new ≡ (view_topic_of image.now list.now name.now out.old).buffer }
{
    let f = query_fault(image, list, name);
    if f != 0 {
        return Answer::Refused(f);
    }
    entry(image, TOPIC, name, b"", out)
}

// The partition of a visible topic's name and a number, which is given by its four bytes as an unsigned one.
pub fn view_partition(image: &[u8], list: &[u8], name: &[u8], number: u32, out: &mut [u8]) -> Answer
    ensures result_value { replied result ≡ (view_partition_of image.now list.now name.now number out.old).reply }
    ensures out_after { out.new ≡ (view_partition_of image.now list.now name.now number out.old).buffer }
{
    let f = query_fault(image, list, name);
    if f != 0 {
        return Answer::Refused(f);
    }
    let mut bytes = [0; 4];
    wire::put(&mut bytes, 0, 4, number as u64);
    entry(image, PARTITION, name, &bytes, out)
}

// The freeze of a visible name. Whatever scope begins the name begins one of the viewer's prefixes or begins with it, so that the viewer's freeze
// is everyone's.
pub fn view_freeze(image: &[u8], list: &[u8], name: &[u8], out: &mut [u8]) -> Answer
    ensures result_value { replied result ≡ (view_freeze_of image.now list.now name.now out.old).reply }
    ensures out_after { out.new ≡ (view_freeze_of image.now list.now name.now out.old).buffer }
{
    let f = query_fault(image, list, name);
    if f != 0 {
        return Answer::Refused(f);
    }
    let end = reals_end(image);
    emit_freeze(&image[HEAD_SIZE..end], name, out)
}
