// The freeze of a name: of its literal scope, else of its longest stored prefix.
#![tactic(auto)]

ghost use Rattle.std.specs.Prelude.{◌≡◌, [], ◌≤◌, length};
ghost use Rattle.model.specs.Choice.{or_else};
ghost use Rattle.model.specs.Snapshot.{emit};
ghost use Rattle.model.specs.Lookup.{begins_with, internal, literal, prefixed, longest_by, freeze, as_list};
ghost use Rattle.model.specs.Answers.{replied};
ghost use Rattle.entries.specs.Entries.{records_in, Entries};
ghost use Rattle.find.specs.Found.{AllKept};
ghost use Rattle.entries.specs.Held.{entries_in};
ghost use Rattle.lookup_freezes.specs.Freezes.{frozen_in, Chosen};

use entries::Place;
use find::{emit_place, find};
use model::answers::Answer;
use model::kinds::TOPIC_FREEZE;

// Whether a name is internal: none of these is frozen.
pub fn is_internal(name: &[u8]) -> bool
    ensures { result ≡ begins_with internal name.now }
{
    wire::begins_with(name, b"__")
}

// The place of the freeze of a name's longest stored prefix. The prefixes ascend as the entries do: each is sought after the last one's place.
fn longest(s: &[u8], name: &[u8]) -> Place
    requires { Entries s.now × AllKept (records_in s.now) × (length name.now ≤ 255) }
    ensures { Chosen s.now (longest_by (frozen_in s.now prefixed) [] name.now) result.at result.end }
{
    let mut best = Place { at: 0, end: 0 };
    let mut from = 0;
    let mut n = 0;
    loop {
        let p = find(&s[from..], TOPIC_FREEZE, &name[..n], b"\x01");
        let at = from + p.at;
        let end = from + p.end;
        if at < end {
            best = Place { at, end };
        }
        if n == name.len() {
            return best;
        }
        from = end;
        n = n + 1;
    }
}

// The place of the freeze of a name that is not internal: the literal scope before every prefix.
fn choose(s: &[u8], name: &[u8]) -> Place
    requires { Entries s.now × AllKept (records_in s.now) × (length name.now ≤ 255) }
    ensures { Chosen s.now (or_else (frozen_in s.now literal name.now) (longest_by (frozen_in s.now prefixed) [] name.now)) result.at result.end }
{
    let p = find(s, TOPIC_FREEZE, name, b"\x00");
    if p.at < p.end {
        return p;
    }
    longest(s, name)
}

// Writes the freeze of a name to the start of an output. The bytes written, none where there is none; or 19 and nothing is written.
pub fn emit_freeze(s: &[u8], name: &[u8], out: &mut [u8]) -> Answer
    requires { Entries s.now × AllKept (records_in s.now) × (length name.now ≤ 255) }
    ensures result_value { replied result ≡ (emit (as_list (freeze name.now (entries_in s.now))) out.old).reply }
    ensures out_after { out.new ≡ (emit (as_list (freeze name.now (entries_in s.now))) out.old).buffer }
{
    if is_internal(name) {
        return Answer::Used(0);
    }
    let p = choose(s, name);
    emit_place(s, p.at, p.end, out)
}
