// The fields of Kafka's messages, and where a message ends. Nothing is written here.
ghost use Rattle.std.specs.Prelude.{◌≡◌, false, ◌≤◌, length, drop};
ghost use Rattle.model.specs.Kafka.{text_of, read_string};
ghost use Rattle.kafka_read.specs.Messages.{name_taken, NameWithin, RestAs, BrokerAs};

use kafka_frame::{Passed, pass_bytes, skip_tagged};
use model::refusals::{PAST_THE_END, WRONG};
use records::text_fault;
use varints::{Varint, read_varint};
use wire::get;

// How long a name is at most.
const STRING_LIMIT: usize = 255;

// The first number of four bytes that is negative when signed.
const HALF: u64 = 0x8000_0000;

// Where a name begins and ends.
#[derive(Clone, Copy)]
pub enum Name {
    Text(usize, usize),
    Refused(u8),
}

// A broker's id, with the place after the message.
#[derive(Clone, Copy)]
pub enum Broker {
    Fields(u64, usize),
    Refused(u8),
}

// The rest of a message: so many bytes as they stand, then its tagged fields.
pub fn read_rest(s: &[u8], at: usize, width: usize) -> Passed
    requires { at ≤ length s.now }
    ensures { RestAs s.now at width result }
{
    if s.len() - at < width {
        return Passed::Refused(PAST_THE_END);
    }
    skip_tagged(s, at + width)
}

// The bytes of a name, by the number before them: their length and one. 0 is null, which no name is.
fn read_text(s: &[u8], at: usize, n: u64) -> Name
    requires { at ≤ length s.now }
    ensures { (text_of n (drop at s.now) ≡ name_taken s.now result) × NameWithin s.now result }
{
    if n == 0 {
        return Name::Refused(WRONG);
    }
    match pass_bytes(s, at, n - 1) {
        Passed::Refused(number) => Name::Refused(number),
        Passed::To(end) => {
            let fault = text_fault(&s[at..end], STRING_LIMIT);
            if fault != 0 {
                return Name::Refused(fault);
            }
            Name::Text(at, end)
        }
    }
}

// A name.
pub fn read_name(s: &[u8], at: usize) -> Name
    requires { at ≤ length s.now }
    ensures { (read_string false (drop at s.now) ≡ name_taken s.now result) × NameWithin s.now result }
{
    match read_varint(s, at) {
        Varint::Refused(number) => Name::Refused(number),
        Varint::Is(n, end) => read_text(s, end, n),
    }
}

// A message with a broker's id first and then so many bytes. Kafka's id is signed, and a negative one is none of ours.
pub fn read_broker(s: &[u8], at: usize, width: usize) -> Broker
    requires { at ≤ length s.now }
    ensures { BrokerAs s.now at width result }
{
    if s.len() - at < 4 {
        return Broker::Refused(PAST_THE_END);
    }
    let broker = get(s, at, 4);
    if HALF <= broker {
        return Broker::Refused(WRONG);
    }
    match read_rest(s, at + 4, width) {
        Passed::Refused(number) => Broker::Refused(number),
        Passed::To(used) => Broker::Fields(broker, used),
    }
}
