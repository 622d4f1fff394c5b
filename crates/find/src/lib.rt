// Entries by what a query names, and the answer that a lookup gives of one.
#![tactic(auto)]

mod bounds;
mod brokers;
mod query;
mod show;

ghost use Rattle.std.specs.Prelude.{◌≡◌, []};
ghost use Rattle.model.specs.Number.{bytes};
ghost use Rattle.model.specs.Snapshot.{emit};
ghost use Rattle.model.specs.Answers.{replied};
ghost use Rattle.entries.specs.Entries.{records_in, Entries, Placed};
ghost use Rattle.find.specs.Found.{Query, query_key, found_in, AllKept, record_at, PlaceHolds};

pub use bounds::{reals_end, weight};
pub use brokers::{at_epoch, stored_next};
use entries::{Place, seek};
use model::NodeId;
use model::answers::Answer;
pub use query::probe;
pub use show::{emit_returned, put_returned, returned_size};

// The place of the entry of a kind whose first two fields, or as much of them as its key has, are these.
pub fn find(s: &[u8], kind: u8, first: &[u8], second: &[u8]) -> Place
    requires { Entries s.now × Query kind first.now second.now }
    ensures { Placed s.now (query_key kind first.now second.now) result.at result.end }
{
    let mut p = [0; 519];
    let n = probe(&mut p, kind, first, second);
    seek(s, &p[..n])
}

// The place of a node's entry of a kind: a broker's or a controller's.
pub fn find_node(s: &[u8], kind: u8, node: NodeId) -> Place
    requires { Entries s.now × Query kind (bytes 8 node.0) [] }
    ensures { Placed s.now (query_key kind (bytes 8 node.0) []) result.at result.end }
{
    let mut id = [0; 8];
    wire::put(&mut id, 0, 8, node.0);
    find(s, kind, &id, b"")
}

// Writes the record of the entry at a place to the start of an output. The bytes written, none where the place is empty; or 19 and nothing is
// written.
pub fn emit_place(s: &[u8], at: usize, end: usize, out: &mut [u8]) -> Answer
    requires { PlaceHolds s.now at end }
    ensures result_value { replied result ≡ (emit (record_at s.now at end) out.old).reply }
    ensures out_after { out.new ≡ (emit (record_at s.now at end) out.old).buffer }
{
    if at < end {
        return emit_returned(&s[at..end], out);
    }
    Answer::Used(0)
}

// The same of the entry of a kind that two fields name.
pub fn emit_found(s: &[u8], kind: u8, first: &[u8], second: &[u8], out: &mut [u8]) -> Answer
    requires { Entries s.now × AllKept (records_in s.now) × Query kind first.now second.now }
    ensures result_value { replied result ≡ (emit (found_in (query_key kind first.now second.now) s.now) out.old).reply }
    ensures out_after { out.new ≡ (emit (found_in (query_key kind first.now second.now) s.now) out.old).buffer }
{
    let p = find(s, kind, first, second);
    emit_place(s, p.at, p.end, out)
}
