// Our records of Kafka's messages, into the output: the bytes written and the bytes used, or 19.
ghost use Rattle.std.specs.Prelude.{◌+◌, ◌≤◌, length};
ghost use Rattle.std.proofs.Math.Seq.{slice};
ghost use Rattle.model.specs.Number.{bytes};
ghost use Rattle.model.specs.Answers.{count_reply};
ghost use Rattle.kafka_read.specs.Messages.{record_of, EmitsAs};

use model::answers::Counted;
use model::refusals::TOO_SHORT;
use records::{put_field, put_head};

// A record of a kind by its parts: the values of its first two fields, and the bytes of its others.
pub fn emit(
    kind: u8,
    first: &[u8],
    second: &[u8],
    others: &[u8],
    used: usize,
    out: &mut [u8],
) -> Counted
    requires { (length first.now ≤ 255) × (length second.now ≤ 255) × (length others.now ≤ 255) }
    ensures { EmitsAs (record_of kind first.now second.now others.now) used out.old (count_reply result) out.new }
{
    let at = 6 + first.len();
    let end = at + 3 + second.len();
    let size = end + others.len();
    if out.len() < size {
        return Counted::Refused(TOO_SHORT);
    }
    put_head(out, 0, kind, size - 3);
    put_field(out, 3, 1, first);
    put_field(out, at, 2, second);
    wire::copy(out, end, others);
    Counted::Written(size, used as u64)
}

// A record whose first field is a broker's id and whose second is the eight bytes at `at`.
pub fn emit_broker(
    kind: u8,
    broker: u64,
    s: &[u8],
    at: usize,
    others: &[u8],
    used: usize,
    out: &mut [u8],
) -> Counted
    requires { (at + 8 ≤ length s.now) × (length others.now ≤ 255) }
    ensures { EmitsAs (record_of kind (bytes 8 broker) (slice at (at + 8) s.now) others.now) used out.old (count_reply result) out.new }
{
    let mut id = [0; 8];
    wire::put(&mut id, 0, 8, broker);
    let end = at + 8;
    emit(kind, &id, &s[at..end], others, used, out)
}
