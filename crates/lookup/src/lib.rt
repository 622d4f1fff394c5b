// Lookups: a stored entry as its record, the features epoch, the log offset, the number of short partitions, the freeze of a name, a rate.
#![tactic(auto)]

ghost use Rattle.std.specs.Prelude.{◌≡◌, true, ◌≤◌, length};
ghost use Rattle.model.specs.Map.{get};
ghost use Rattle.model.specs.Contents.{key};
ghost use Rattle.model.specs.Image.{is_image, contents_of};
ghost use Rattle.model.specs.Snapshot.{emit};
ghost use Rattle.model.specs.Lookup.{found, topic_by_name, topic_by_id, partition_of, broker_of, epoch_of, offset_of, short_of, throttle as throttle_in, freeze_of, throttle_of};
ghost use Rattle.model.specs.Answers.{replied, valued, rating};
ghost use Rattle.find.specs.Found.{Query, query_key};
ghost use Rattle.lookup.specs.Values.{rated_as};

use find::{emit_found, reals_end};
use header::{HEAD_SIZE, epoch_in, offset_in};
use image::is_image;
use lookup_freezes::emit_freeze;
use lookup_rates::Rate;
use lookup_scans::{emit_named, short_in};
use lookup_throttles::rate_in;
use model::NodeId;
use model::answers::{Answer, Rated, Value};
use model::kinds::{BROKER_REGISTRATION, PARTITION, TOPIC};
use model::refusals::{NO_IMAGE, WRONG};
use shape_faults::text_fault;

// The most bytes of a name.
const NAME_LIMIT: usize = 255;

// The entry of a kind that two fields name.
pub fn entry(image: &[u8], kind: u8, first: &[u8], second: &[u8], out: &mut [u8]) -> Answer
    requires { (is_image image.now ≡ true) × Query kind first.now second.now }
    ensures result_value { replied result ≡ (emit (found (get key (query_key kind first.now second.now) (contents_of image.now).real)) out.old).reply }
    ensures out_after { out.new ≡ (emit (found (get key (query_key kind first.now second.now) (contents_of image.now).real)) out.old).buffer }
{
    let end = reals_end(image);
    emit_found(&image[HEAD_SIZE..end], kind, first, second, out)
}

// The topic of a name.
pub fn topic(image: &[u8], name: &[u8], out: &mut [u8]) -> Answer
    ensures result_value { replied result ≡ (topic_by_name image.now name.now out.old).reply }
    ensures out_after { out.new ≡ (topic_by_name image.now name.now out.old).buffer }
{
    if !is_image(image) {
        return Answer::Refused(NO_IMAGE);
    }
    let f = text_fault(name, NAME_LIMIT);
    if f != 0 {
        return Answer::Refused(f);
    }
    entry(image, TOPIC, name, b"", out)
}

// The topic that the id index names for an id.
pub fn topic_by_id(image: &[u8], id: &[u8; 16], out: &mut [u8]) -> Answer
    ensures result_value { replied result ≡ (topic_by_id image.now id.now out.old).reply }
    ensures out_after { out.new ≡ (topic_by_id image.now id.now out.old).buffer }
{
    if !is_image(image) {
        return Answer::Refused(NO_IMAGE);
    }
    let end = reals_end(image);
    emit_named(&image[HEAD_SIZE..end], id, out)
}

// The partition of a topic and a number, which is given by its four bytes as an unsigned one.
pub fn partition(image: &[u8], name: &[u8], number: u32, out: &mut [u8]) -> Answer
    ensures result_value { replied result ≡ (partition_of image.now name.now number out.old).reply }
    ensures out_after { out.new ≡ (partition_of image.now name.now number out.old).buffer }
{
    if !is_image(image) {
        return Answer::Refused(NO_IMAGE);
    }
    let f = text_fault(name, NAME_LIMIT);
    if f != 0 {
        return Answer::Refused(f);
    }
    let mut bytes = [0; 4];
    wire::put(&mut bytes, 0, 4, number as u64);
    entry(image, PARTITION, name, &bytes, out)
}

// The broker of a node.
pub fn broker(image: &[u8], node: NodeId, out: &mut [u8]) -> Answer
    ensures result_value { replied result ≡ (broker_of image.now node.0 out.old).reply }
    ensures out_after { out.new ≡ (broker_of image.now node.0 out.old).buffer }
{
    if !is_image(image) {
        return Answer::Refused(NO_IMAGE);
    }
    let mut bytes = [0; 8];
    wire::put(&mut bytes, 0, 8, node.0);
    entry(image, BROKER_REGISTRATION, &bytes, b"", out)
}

// The features epoch, by its bytes.
pub fn features_epoch(image: &[u8]) -> Value
    ensures { valued result ≡ epoch_of image.now }
{
    if !is_image(image) {
        return Value::Refused(NO_IMAGE);
    }
    Value::Is(epoch_in(image))
}

// The log offset of the last record applied, an i64 by its bits: -1 where there is none.
pub fn log_offset(image: &[u8]) -> Value
    ensures { valued result ≡ offset_of image.now }
{
    if !is_image(image) {
        return Value::Refused(NO_IMAGE);
    }
    Value::Is(offset_in(image))
}

// How many partitions are short: their ISR has fewer nodes than their replicas.
pub fn short_count(image: &[u8]) -> Value
    ensures { valued result ≡ short_of image.now }
{
    if !is_image(image) {
        return Value::Refused(NO_IMAGE);
    }
    let end = reals_end(image);
    Value::Is(short_in(&image[HEAD_SIZE..end]))
}

// The freeze of a name: none for an internal one, else its literal scope's, else its longest stored prefix's.
pub fn freeze(image: &[u8], name: &[u8], out: &mut [u8]) -> Answer
    ensures result_value { replied result ≡ (freeze_of image.now name.now out.old).reply }
    ensures out_after { out.new ≡ (freeze_of image.now name.now out.old).buffer }
{
    if !is_image(image) {
        return Answer::Refused(NO_IMAGE);
    }
    let f = text_fault(name, NAME_LIMIT);
    if f != 0 {
        return Answer::Refused(f);
    }
    let end = reals_end(image);
    emit_freeze(&image[HEAD_SIZE..end], name, out)
}

// The rate of a node by the config of a name.
fn rate(image: &[u8], node: NodeId, name: &[u8]) -> Rated
    requires { (is_image image.now ≡ true) × (length name.now ≤ 255) }
    ensures { result ≡ rated_as (throttle_in node.0 name.now (contents_of image.now).real) }
{
    let end = reals_end(image);
    match rate_in(&image[HEAD_SIZE..end], node, name) {
        Rate::Is(n) => Rated::Rate(n),
        Rate::None => Rated::None,
    }
}

// The rate of a node: 0 the leader's replication, 1 the follower's, 2 the moves between log directories.
pub fn throttle(image: &[u8], node: NodeId, kind: u8) -> Rated
    ensures { rating result ≡ throttle_of image.now node.0 kind }
{
    if !is_image(image) {
        return Rated::Refused(NO_IMAGE);
    }
    match kind {
        0 => rate(image, node, b"leader.replication.throttled.rate"),
        1 => rate(image, node, b"follower.replication.throttled.rate"),
        2 => rate(
            image,
            node,
            b"replica.alter.log.dirs.io.max.bytes.per.second",
        ),
        3..=255 => Rated::Refused(WRONG),
    }
}
