// Writing a record of ours in Kafka's own bytes: KIP-631's frame around a message of Kafka's.
#![tactic(auto)]

ghost use Rattle.std.specs.Prelude.{◌≡◌, [], ◌∷◌, ◌≤◌, length};
ghost use Rattle.model.specs.Answers.{replied};
ghost use Rattle.model.specs.Reply.{emit_bytes};
ghost use Rattle.model.specs.Kafka.{write_kafka_of};
ghost use Rattle.records.specs.Answers.{put_at};
ghost use Rattle.keys.specs.Keys.{kind_in, run_in};
ghost use Rattle.kafka_write.specs.Messages.{message_bytes, named_bytes, EndsAs, broker_ends, sent_by, NamedFits, BrokerFits, Sendable};

use keys::{number_at, value_at};
use model::answers::Answer;
use model::kinds;
use model::refusals::{NOT_KAFKAS, TOO_SHORT, UNKNOWN_KIND};
use records::read;
use varints::put_varint;
use wire::{copy, put};

// The first number that a field of four bytes does not hold: it is signed there.
const HALF: u64 = 0x8000_0000;

// The frame's version, the message's key and its version: a varint of one byte each.
fn put_frame(out: &mut [u8], key: u8)
    requires { 3 ≤ length out.old }
    ensures { out.new ≡ put_at out.old 0 (1 ∷ key ∷ 0 ∷ []) }
{
    out[0] = 1;
    out[1] = key;
    out[2] = 0;
}

// A message of three parts in its frame. It has no tagged fields: their count, 0, is its last byte.
fn emit(key: u8, first: &[u8], second: &[u8], third: &[u8], out: &mut [u8]) -> Answer
    requires { (length first.now ≤ 255) × (length second.now ≤ 255) × (length third.now ≤ 255) }
    ensures { EndsAs (replied result) out.new (emit_bytes (message_bytes key first.now second.now third.now) out.old) }
{
    let at = 3 + first.len();
    let mid = at + second.len();
    let end = mid + third.len();
    if out.len() <= end {
        return Answer::Refused(TOO_SHORT);
    }
    put_frame(out, key);
    copy(out, 3, first);
    copy(out, at, second);
    copy(out, mid, third);
    out[end] = 0;
    Answer::Used(end + 1)
}

// A name, with its length and one before it, and then bytes as they stand: a topic, whose count and replication factor are left out, or a
// feature's level.
fn write_named(s: &[u8], key: u8, out: &mut [u8]) -> Answer
    requires { (3 ≤ length s.now) × NamedFits (run_in s.now) }
    ensures { EndsAs (replied result) out.new (emit_bytes (named_bytes key (run_in s.now)) out.old) }
{
    let name = value_at(s, 1);
    let start = name.start;
    let end = name.end;
    let rest = value_at(s, 2);
    let from = rest.start;
    let to = rest.end;
    let mut size = [0; 2];
    let n = put_varint(&mut size, 0, end - start + 1);
    emit(key, &size[..n], &s[start..end], &s[from..to], out)
}

// A broker's id as four bytes, and then two fields as they stand: producer ids, or a broker that is unregistered, which has no third field.
fn write_broker(s: &[u8], key: u8, out: &mut [u8]) -> Answer
    requires { (3 ≤ length s.now) × BrokerFits (run_in s.now) }
    ensures { EndsAs (replied result) out.new (broker_ends key (run_in s.now) out.old) }
{
    let broker = number_at(s, 1, 8);
    if HALF <= broker {
        return Answer::Refused(NOT_KAFKAS);
    }
    let mut id = [0; 4];
    put(&mut id, 0, 4, broker);
    let epoch = value_at(s, 2);
    let start = epoch.start;
    let end = epoch.end;
    let next = value_at(s, 3);
    let from = next.start;
    let to = next.end;
    emit(key, &id, &s[start..end], &s[from..to], out)
}

// A record that was read, by its kind. The keys are Kafka's.
fn write_record(s: &[u8], out: &mut [u8]) -> Answer
    requires { Sendable s.now }
    ensures { EndsAs (replied result) out.new (sent_by (kind_in s.now) (run_in s.now) out.old) }
{
    let kind = s[0];
    if kind == kinds::TOPIC {
        return write_named(s, 2, out);
    }
    if kind == kinds::FEATURE_LEVEL {
        return write_named(s, 12, out);
    }
    if kind == kinds::PRODUCER_IDS {
        return write_broker(s, 15, out);
    }
    if kind == kinds::UNREGISTER_BROKER {
        return write_broker(s, 1, out);
    }
    Answer::Refused(UNKNOWN_KIND)
}

// Writes the record at the start of `input` as Kafka's: the bytes written. Later bytes are not looked at.
pub fn write(input: &[u8], out: &mut [u8]) -> Answer
    ensures result_value { replied result ≡ (write_kafka_of input.now out.old).reply }
    ensures out_after { out.new ≡ (write_kafka_of input.now out.old).buffer }
{
    match read(input) {
        Answer::Refused(number) => Answer::Refused(number),
        Answer::Used(used) => write_record(&input[..used], out),
    }
}
