// What Kafka's messages have in common: KIP-631's frame before their fields, and the tagged fields behind them, which are skipped.
#![tactic(auto)]

ghost use Rattle.std.specs.Prelude.{◌≡◌, false, cond, ℕ, ◌≤◌, eqb, length, drop};
ghost use Rattle.model.specs.Number.{Bytes};
ghost use Rattle.model.specs.Record.{Rec};
ghost use Rattle.model.specs.Kafka.{Taken, bad, took, and_then, read_varint, read_fixed, skip_tagged, read_key, read_kafka};
ghost use Rattle.kafka_frame.specs.Parts.{onward, Behind, by_kind, KindAs, framed, FrameWithin};

use model::kinds;
use model::refusals::{PAST_THE_END, UNKNOWN_KIND, WRONG};
use varints::{Varint, read_varint};

// KIP-631's frame, and the messages, by their versions.
const FRAME_VERSION: u64 = 1;

const MESSAGE_VERSION: u64 = 0;

// No kind.
const NONE: u8 = 0;

// Where a part ends, or a refusal's number.
#[derive(Clone, Copy)]
pub enum Passed {
    To(usize),
    Refused(u8),
}

// The kind of a message, and where its fields begin.
#[derive(Clone, Copy)]
pub enum Frame {
    Message(u8, usize),
    Refused(u8),
}

// A version: all but one are wrong.
fn read_version(s: &[u8], at: usize, version: u64) -> Passed
    requires { at ≤ length s.now }
    ensures { ((f : Bytes → Taken Rec) → and_then (read_varint false (drop at s.now)) (λ n rest. cond (eqb n version) (f rest) (bad 4)) ≡ onward s.now f result) × Behind s.now at result }
{
    match read_varint(s, at) {
        Varint::Refused(number) => Passed::Refused(number),
        Varint::Is(n, end) => {
            if n != version {
                return Passed::Refused(WRONG);
            }
            Passed::To(end)
        }
    }
}

// The kind of the messages with a key. The keys are Kafka's.
fn kind_of(key: u64) -> u8
    ensures { KindAs key result }
{
    if key == 1 {
        return kinds::UNREGISTER_BROKER;
    }
    if key == 2 {
        return kinds::TOPIC;
    }
    if key == 12 {
        return kinds::FEATURE_LEVEL;
    }
    if key == 15 {
        return kinds::PRODUCER_IDS;
    }
    NONE
}

// A message's version, after its key.
fn read_message_version(s: &[u8], at: usize, kind: u8) -> Frame
    requires { at ≤ length s.now }
    ensures { (by_kind kind (drop at s.now) ≡ framed s.now result) × FrameWithin s.now result }
{
    if kind == NONE {
        return Frame::Refused(UNKNOWN_KIND);
    }
    match read_version(s, at, MESSAGE_VERSION) {
        Passed::Refused(number) => Frame::Refused(number),
        Passed::To(end) => Frame::Message(kind, end),
    }
}

// A message's key and version.
fn read_key(s: &[u8], at: usize) -> Frame
    requires { at ≤ length s.now }
    ensures { (read_key false (drop at s.now) ≡ framed s.now result) × FrameWithin s.now result }
{
    match read_varint(s, at) {
        Varint::Refused(number) => Frame::Refused(number),
        Varint::Is(key, end) => read_message_version(s, end, kind_of(key)),
    }
}

// The frame: its version, the message's key and its version.
pub fn read_frame(s: &[u8]) -> Frame
    ensures { (read_kafka false s.now ≡ framed s.now result) × FrameWithin s.now result }
{
    match read_version(s, 0, FRAME_VERSION) {
        Passed::Refused(number) => Frame::Refused(number),
        Passed::To(at) => read_key(s, at),
    }
}

// So many bytes as they stand.
pub fn pass_bytes(s: &[u8], at: usize, len: u64) -> Passed
    requires { at ≤ length s.now }
    ensures { ((f : Bytes → Taken ℕ) → and_then (read_fixed len (drop at s.now)) (λ v rest. f rest) ≡ onward s.now f result) × Behind s.now at result }
{
    let left = s.len() - at;
    if (left as u64) < len {
        return Passed::Refused(PAST_THE_END);
    }
    Passed::To(at + len as usize)
}

// A tagged field's size and its bytes.
fn skip_sized(s: &[u8], at: usize) -> Passed
    requires { at ≤ length s.now }
    ensures { ((f : Bytes → Taken ℕ) → and_then (read_varint false (drop at s.now)) (λ size t. and_then (read_fixed size t) (λ v rest. f rest)) ≡ onward s.now f result) × Behind s.now at result }
{
    match read_varint(s, at) {
        Varint::Refused(number) => Passed::Refused(number),
        Varint::Is(len, end) => pass_bytes(s, end, len),
    }
}

// A tagged field, whatever its tag.
fn skip_field(s: &[u8], at: usize) -> Passed
    requires { at ≤ length s.now }
    ensures { ((f : Bytes → Taken ℕ) → and_then (read_varint false (drop at s.now)) (λ tag u. and_then (read_varint false u) (λ size t. and_then (read_fixed size t) (λ v rest. f rest))) ≡ onward s.now f result) × Behind s.now at result }
{
    match read_varint(s, at) {
        Varint::Refused(number) => Passed::Refused(number),
        Varint::Is(_, end) => skip_sized(s, end),
    }
}

// So many tagged fields.
fn skip_fields(s: &[u8], at: usize, count: u64) -> Passed
    requires { at ≤ length s.now }
    ensures { (skip_tagged count (drop at s.now) ≡ onward s.now (took 0) result) × Behind s.now at result }
{
    let mut to = at;
    let mut left = count;
    while 0 < left {
        match skip_field(s, to) {
            Passed::Refused(number) => {
                return Passed::Refused(number);
            }
            Passed::To(end) => {
                to = end;
                left = left - 1;
            }
        }
    }
    Passed::To(to)
}

// The tagged fields at a message's end: how many, and each.
pub fn skip_tagged(s: &[u8], at: usize) -> Passed
    requires { at ≤ length s.now }
    ensures { (and_then (read_varint false (drop at s.now)) skip_tagged ≡ onward s.now (took 0) result) × Behind s.now at result }
{
    match read_varint(s, at) {
        Varint::Refused(number) => Passed::Refused(number),
        Varint::Is(count, end) => skip_fields(s, end, count),
    }
}
