// Open, the exact test, Validate, Apply and the lookups for programs in other languages. `unpacked` (`specs/Unpacked.antt`) is what their
// packed answers give back.
ghost use Rattle.std.specs.Prelude.{◌≡◌, cond, ◌*◌};
ghost use Rattle.model.specs.Apply.{apply_of};
ghost use Rattle.model.specs.Image.{is_image, open_of};
ghost use Rattle.model.specs.Lookup.{topic_by_name, topic_by_id, partition_of, broker_of, epoch_of, offset_of, short_of, freeze_of, throttle_of};
ghost use Rattle.model.specs.Validate.{validate_of};
ghost use Rattle.packing.specs.Packed.{packed, counted, widened};

use model::NodeId;
use model::answers::{Rated, Value};
use packing::{alone, pack, put_first};

// Opens a fresh image in a buffer of 144 to 65,536 bytes.
#[unsafe(no_mangle)]
pub extern "C" fn jeghatuf_open(buffer: &mut [u8]) -> u64
    ensures value { result ≡ packed (open_of buffer.old).reply }
    ensures buffer_after { buffer.new ≡ (open_of buffer.old).buffer }
{
    alone(header::open(buffer))
}

// Whether a buffer is an image: 1 or 0.
#[unsafe(no_mangle)]
pub extern "C" fn jeghatuf_is_image(buffer: &[u8]) -> u64
    ensures { result ≡ cond (is_image buffer.now) 1 0 }
{
    if image::is_image(buffer) {
        return 1;
    }
    0
}

// The first refusal of the record at the start of `input`.
#[unsafe(no_mangle)]
pub extern "C" fn jeghatuf_validate(image: &[u8], input: &[u8]) -> u64
    ensures { result ≡ packed (validate_of image.now input.now) }
{
    alone(validate::validate(image, input))
}

// Applies the record at the start of `input` to an image, at its log offset: an int64_t by its bits.
#[unsafe(no_mangle)]
pub extern "C" fn jeghatuf_apply(image: &mut [u8], offset: u64, input: &[u8]) -> u64
    ensures value { result ≡ packed (apply_of image.old offset input.now).reply }
    ensures image_after { image.new ≡ (apply_of image.old offset input.now).buffer }
{
    alone(apply::apply(image, offset, input))
}

// The topic of a name, as its record: the bytes written.
#[unsafe(no_mangle)]
pub extern "C" fn jeghatuf_topic(image: &[u8], name: &[u8], out: &mut [u8]) -> u64
    ensures value { result ≡ packed (topic_by_name image.now name.now out.old).reply }
    ensures out_after { out.new ≡ (topic_by_name image.now name.now out.old).buffer }
{
    pack(lookup::topic(image, name, out))
}

// The topic that the id index names for an id of 16 bytes, as its record.
#[unsafe(no_mangle)]
pub extern "C" fn jeghatuf_topic_by_id(image: &[u8], id: &[u8; 16], out: &mut [u8]) -> u64
    ensures value { result ≡ packed (topic_by_id image.now id.now out.old).reply }
    ensures out_after { out.new ≡ (topic_by_id image.now id.now out.old).buffer }
{
    pack(lookup::topic_by_id(image, id, out))
}

// The partition of a topic and a number, which is given by its four bytes as an unsigned one, as its record.
#[unsafe(no_mangle)]
pub extern "C" fn jeghatuf_partition(image: &[u8], name: &[u8], number: u32, out: &mut [u8]) -> u64
    ensures value { result ≡ packed (partition_of image.now name.now number out.old).reply }
    ensures out_after { out.new ≡ (partition_of image.now name.now number out.old).buffer }
{
    pack(lookup::partition(image, name, number, out))
}

// The broker of a node, as its record.
#[unsafe(no_mangle)]
pub extern "C" fn jeghatuf_broker(image: &[u8], node: u64, out: &mut [u8]) -> u64
    ensures value { result ≡ packed (broker_of image.now node out.old).reply }
    ensures out_after { out.new ≡ (broker_of image.now node out.old).buffer }
{
    pack(lookup::broker(image, NodeId(node), out))
}

// How many partitions are short.
#[unsafe(no_mangle)]
pub extern "C" fn jeghatuf_short_count(image: &[u8]) -> u64
    ensures { result ≡ packed (short_of image.now) }
{
    match lookup::short_count(image) {
        Value::Is(n) => n,
        Value::Refused(number) => alone(number),
    }
}

// The features epoch, by its bytes, in the first of `value`.
#[unsafe(no_mangle)]
pub extern "C" fn jeghatuf_features_epoch(image: &[u8], value: &mut [u64]) -> u64
    ensures value { result ≡ (epoch_of image.now).number * 4294967296 }
    ensures value_after { value.new ≡ widened (epoch_of image.now) value.old }
{
    match lookup::features_epoch(image) {
        Value::Is(n) => {
            put_first(value, n);
            0
        }
        Value::Refused(number) => alone(number),
    }
}

// The log offset of the last record applied, an int64_t by its bits, in the first of `value`: -1 where there is none.
#[unsafe(no_mangle)]
pub extern "C" fn jeghatuf_log_offset(image: &[u8], value: &mut [u64]) -> u64
    ensures value { result ≡ (offset_of image.now).number * 4294967296 }
    ensures value_after { value.new ≡ widened (offset_of image.now) value.old }
{
    match lookup::log_offset(image) {
        Value::Is(offset) => {
            put_first(value, offset);
            0
        }
        Value::Refused(number) => alone(number),
    }
}

// The freeze of a name, as its record.
#[unsafe(no_mangle)]
pub extern "C" fn jeghatuf_freeze(image: &[u8], name: &[u8], out: &mut [u8]) -> u64
    ensures value { result ≡ packed (freeze_of image.now name.now out.old).reply }
    ensures out_after { out.new ≡ (freeze_of image.now name.now out.old).buffer }
{
    pack(lookup::freeze(image, name, out))
}

// The rate of a node in the first of `value`, and whether there is one, 1 or 0: none and the rate 0 differ.
#[unsafe(no_mangle)]
pub extern "C" fn jeghatuf_throttle(image: &[u8], node: u64, kind: u8, value: &mut [u64]) -> u64
    ensures value { result ≡ counted (throttle_of image.now node kind) }
    ensures value_after { value.new ≡ widened (throttle_of image.now node kind) value.old }
{
    match lookup::throttle(image, NodeId(node), kind) {
        Rated::Rate(rate) => {
            put_first(value, rate);
            1
        }
        Rated::None => 0,
        Rated::Refused(number) => alone(number),
    }
}
