// Break-glass proposals, against the stored ones.
ghost use Rattle.std.specs.Prelude.{◌≡◌, ◌≤◌, length};
ghost use Rattle.std.proofs.Math.Option.{some};
ghost use Rattle.model.specs.Run.{value, values};
ghost use Rattle.model.specs.Key.{name_key};
ghost use Rattle.model.specs.Move.{run_at};
ghost use Rattle.model.specs.Validate.{extends as extends_of, proposal_fault};
ghost use Rattle.model.specs.declared.Kind.TheVariants.{BreakGlassProposal};
ghost use Rattle.fields.specs.Fields.{Inside};
ghost use Rattle.keys.specs.Keys.{run_in};
ghost use Rattle.entries.specs.Entries.{Entries};
ghost use Rattle.entries.specs.Held.{entries_in};
ghost use Rattle.judge.specs.Judge.{NextOf};

use crate::lookups::find_named;
use crate::values::unless;
use fields::{Cursor, Step};
use keys::number_at;
use model::kinds::BREAK_GLASS_PROPOSAL;
use model::refusals::{CONSUMED, NO_EXTENSION, WITHDRAWN};

const APPROVAL: usize = 8;

// The next value of a tag at a cursor or after it, by its place and the cursor after it, or none.
#[derive(Clone, Copy)]
pub enum Value {
    At(usize, usize, Cursor),
    Last,
}

fn next_value(s: &[u8], from: Cursor, tag: usize) -> Value
    requires { Inside s.now from }
    ensures { NextOf s.now from tag result }
{
    let mut c = from;
    loop {
        match c.next(s) {
            Step::Field {
                tag: t,
                start,
                len,
                next,
            } => {
                if t == tag {
                    return Value::At(start, start + len, next);
                }
                c = next;
            }
            Step::Torn => {
                return Value::Last;
            }
            Step::End => {
                return Value::Last;
            }
        }
    }
}

// Whether a proposal's approvals begin with those of an old one.
fn extends(old: &[u8], new: &[u8]) -> bool
    requires { (3 ≤ length old.now) × (3 ≤ length new.now) }
    ensures { result ≡ extends_of (values 8 (run_in old.now)) (values 8 (run_in new.now)) }
{
    let mut c = Cursor {
        at: 3,
        to: old.len(),
    };
    let mut d = Cursor {
        at: 3,
        to: new.len(),
    };
    loop {
        match next_value(old, c, APPROVAL) {
            Value::At(start, end, next) => match next_value(new, d, APPROVAL) {
                Value::At(from, to, after) => {
                    if !wire::same(&old[start..end], &new[from..to]) {
                        return false;
                    }
                    c = next;
                    d = after;
                }
                Value::Last => {
                    return false;
                }
            },
            Value::Last => {
                return true;
            }
        }
    }
}

// Refuses a proposal where the stored one is consumed or withdrawn, or has approvals that the proposal does not begin with.
fn stored_fault(e: &[u8], rec: &[u8]) -> u8
    requires { (3 ≤ length e.now) × (3 ≤ length rec.now) × (length (value 9 (run_in e.now)) ≡ 8) × (length (value 10 (run_in e.now)) ≡ 1) }
    ensures { result ≡ proposal_fault (run_in rec.now) (some (run_in e.now)) }
{
    if number_at(e, 9, 8) != 0 {
        return CONSUMED;
    }
    if number_at(e, 10, 1) == 1 {
        return WITHDRAWN;
    }
    unless(extends(e, rec), NO_EXTENSION)
}

// The same against the stored proposal of a record's id, where there is one.
pub fn proposal_fault(s: &[u8], rec: &[u8]) -> u8
    requires { Entries s.now × (3 ≤ length rec.now) × (length (value 1 (run_in rec.now)) ≤ 255) }
    ensures { result ≡ proposal_fault (run_in rec.now) (run_at (name_key BreakGlassProposal (value 1 (run_in rec.now))) (entries_in s.now)) }
{
    let p = find_named(s, BREAK_GLASS_PROPOSAL, rec);
    let at = p.at;
    let end = p.end;
    if end <= at {
        return 0;
    }
    stored_fault(&s[at..end], rec)
}
