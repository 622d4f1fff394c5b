// A stored entry as the record that it is returned as: its own bytes, but of a topic without its last field.
ghost use Rattle.std.specs.Prelude.{◌≡◌, ◌+◌, ◌≤◌, length};
ghost use Rattle.model.specs.Reply.{emit_bytes};
ghost use Rattle.model.specs.Answers.{replied};
ghost use Rattle.records.specs.Answers.{put_at};
ghost use Rattle.find.specs.Returned.{Entire, returned_size, returned_bytes};

use model::answers::Answer;
use model::kinds::TOPIC;
use model::refusals::TOO_SHORT;
use records::put_head;

// The bytes of a topic's last field: whether the id index names it.
const FLAG_SIZE: usize = 8;

// How long an entry's record is.
pub fn returned_size(e: &[u8]) -> usize
    requires { Entire e.now }
    ensures { result ≡ returned_size e.now }
{
    if e[0] == TOPIC {
        return e.len() - FLAG_SIZE;
    }
    e.len()
}

// Writes an entry's record at `at`.
pub fn put_returned(out: &mut [u8], at: usize, e: &[u8])
    requires { Entire e.now × (at + returned_size e.now ≤ length out.old) }
    ensures { out.new ≡ put_at out.old at (returned_bytes e.now) }
{
    if e[0] == TOPIC {
        let end = e.len() - FLAG_SIZE;
        put_head(out, at, TOPIC, end - 3);
        wire::copy(out, at + 3, &e[3..end]);
        return;
    }
    wire::copy(out, at, e);
}

// Writes an entry's record to the start of an output. The bytes written, or 19 and nothing is written.
pub fn emit_returned(e: &[u8], out: &mut [u8]) -> Answer
    requires { Entire e.now }
    ensures result_value { replied result ≡ (emit_bytes (returned_bytes e.now) out.old).reply }
    ensures out_after { out.new ≡ (emit_bytes (returned_bytes e.now) out.old).buffer }
{
    let n = returned_size(e);
    if out.len() < n {
        return Answer::Refused(TOO_SHORT);
    }
    put_returned(out, 0, e);
    Answer::Used(n)
}
