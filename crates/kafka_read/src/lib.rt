// Reading Kafka's own record bytes: one record of the metadata log, whose message becomes a record of ours. Parts are judged in byte order.
#![tactic(auto)]

mod emit;
mod message;

ghost use Rattle.std.specs.Prelude.{◌≡◌, false, ◌≤◌, length, drop};
ghost use Rattle.model.specs.Answers.{count_reply};
ghost use Rattle.model.specs.Kafka.{read_message, read_kafka_of};
ghost use Rattle.kafka_frame.specs.Parts.{message_of};
ghost use Rattle.kafka_read.specs.Messages.{AnswersAs, NamedAs};

use emit::{emit, emit_broker};
use kafka_frame::{Frame, Passed, read_frame};
use message::{Broker, Name, read_broker, read_name, read_rest};
use model::answers::Counted;
use model::kinds;
use records::put_field;

// A message with a name first and then so many bytes: a topic, or a feature's level. The other fields of our record are lent as bytes.
fn read_named(s: &[u8], at: usize, kind: u8, width: usize, others: &[u8], out: &mut [u8]) -> Counted
    requires { (at ≤ length s.now) × (width ≤ 255) × (length others.now ≤ 255) × NamedAs kind width others.now }
    ensures { AnswersAs s.now out.old (read_message false (message_of kind) (drop at s.now)) (count_reply result) out.new }
{
    match read_name(s, at) {
        Name::Refused(number) => Counted::Refused(number),
        Name::Text(start, end) => match read_rest(s, end, width) {
            Passed::Refused(number) => Counted::Refused(number),
            Passed::To(used) => {
                let last = end + width;
                emit(kind, &s[start..end], &s[end..last], others, used, out)
            }
        },
    }
}

// Producer ids: a broker, its epoch and the next id.
fn read_producers(s: &[u8], at: usize, out: &mut [u8]) -> Counted
    requires { at ≤ length s.now }
    ensures { AnswersAs s.now out.old (read_message false (message_of 8) (drop at s.now)) (count_reply result) out.new }
{
    match read_broker(s, at, 16) {
        Broker::Refused(number) => Counted::Refused(number),
        Broker::Fields(broker, used) => {
            let mid = at + 12;
            let last = at + 20;
            let mut next = [0; 11];
            put_field(&mut next, 0, 3, &s[mid..last]);
            emit_broker(kinds::PRODUCER_IDS, broker, s, at + 4, &next, used, out)
        }
    }
}

// A broker that is unregistered: its id and its epoch.
fn read_unregistration(s: &[u8], at: usize, out: &mut [u8]) -> Counted
    requires { at ≤ length s.now }
    ensures { AnswersAs s.now out.old (read_message false (message_of 9) (drop at s.now)) (count_reply result) out.new }
{
    match read_broker(s, at, 8) {
        Broker::Refused(number) => Counted::Refused(number),
        Broker::Fields(broker, used) => emit_broker(
            kinds::UNREGISTER_BROKER,
            broker,
            s,
            at + 4,
            b"",
            used,
            out,
        ),
    }
}

// A message of a kind, whose fields begin at `at`. A topic's count and replication factor are 0: Kafka's record has none.
fn read_message(s: &[u8], at: usize, kind: u8, out: &mut [u8]) -> Counted
    requires { at ≤ length s.now }
    ensures { AnswersAs s.now out.old (read_message false (message_of kind) (drop at s.now)) (count_reply result) out.new }
{
    if kind == kinds::TOPIC {
        return read_named(
            s,
            at,
            kinds::TOPIC,
            16,
            b"\x03\x00\x04\x00\x00\x00\x00\x04\x00\x02\x00\x00",
            out,
        );
    }
    if kind == kinds::FEATURE_LEVEL {
        return read_named(s, at, kinds::FEATURE_LEVEL, 2, b"", out);
    }
    if kind == kinds::PRODUCER_IDS {
        return read_producers(s, at, out);
    }
    read_unregistration(s, at, out)
}

// Reads the record at the start of `input` and writes ours: the bytes written, and the bytes of the input that were used. Later bytes are not
// looked at.
pub fn read(input: &[u8], out: &mut [u8]) -> Counted
    ensures result_value { count_reply result ≡ (read_kafka_of input.now out.old).reply }
    ensures out_after { out.new ≡ (read_kafka_of input.now out.old).buffer }
{
    match read_frame(input) {
        Frame::Refused(number) => Counted::Refused(number),
        Frame::Message(kind, at) => read_message(input, at, kind, out),
    }
}
