// Lists of names, each as a two-byte length and its bytes: the name at a place, and the checks of a whole list.
#![tactic(auto)]

ghost use Rattle.std.specs.Prelude.{◌≡◌, ◌<◌, length};
ghost use Rattle.std.proofs.Math.Option.{some};
ghost use Rattle.model.specs.Names.{name_fault};
ghost use Rattle.names.specs.Lists.{out_of_order, NameAs, CheckedAs};

use model::refusals::{OVER_A_LIMIT, PAST_THE_END, WRONG};
use std::cmp::Ordering;
use wire::{compare, get16, is_text};

// The most bytes of a name.
const NAME_LIMIT: usize = 255;

// What stands at a place of a list: a name, where its bytes begin and end, or bytes that are no whole name.
#[derive(Clone, Copy)]
pub enum Name {
    At(usize, usize),
    Torn,
}

// The name at a place. The next one begins where it ends.
pub fn name_at(list: &[u8], at: usize) -> Name
    requires { at < length list.now }
    ensures { NameAs list.now at result }
{
    let left = list.len() - at;
    if left < 2 {
        return Name::Torn;
    }
    let len = get16(list, at);
    if left - 2 < len {
        return Name::Torn;
    }
    let start = at + 2;
    Name::At(start, start + len)
}

// Whether a name is below the one before it, in a list that is to be in order.
fn is_out_of_order(v: &[u8], prior: &[u8], ordered: bool) -> bool
    ensures { result ≡ out_of_order ordered prior.now v.now }
{
    if !ordered {
        return false;
    }
    match compare(v, prior) {
        Ordering::Less => true,
        Ordering::Equal => false,
        Ordering::Greater => false,
    }
}

// What is wrong with a name behind another one: no UTF-8 or, in a list that is to be in order, below the other; then too long.
fn name_fault(v: &[u8], prior: &[u8], ordered: bool) -> u8
    ensures { result ≡ name_fault ordered (some prior.now) v.now }
{
    if !is_text(v) {
        return WRONG;
    }
    if is_out_of_order(v, prior, ordered) {
        return WRONG;
    }
    if NAME_LIMIT < v.len() {
        return OVER_A_LIMIT;
    }
    0
}

// What a list comes to: how many names it has and where the last one's bytes begin, which end with the list; or the number of the first fault.
#[derive(Clone, Copy)]
pub enum Checked {
    Names(usize, usize),
    Refused(u8),
}

// Checks a list of at most `most` names, in ascending order where it is to be ordered. One name more is refused unread. Nothing is below the empty
// name, so that it stands before the first.
pub fn check(list: &[u8], most: usize, ordered: bool) -> Checked
    ensures { CheckedAs ordered most list.now result }
{
    let mut n = 0;
    let mut start = 0;
    let mut at = 0;
    while at < list.len() {
        if most <= n {
            return Checked::Refused(OVER_A_LIMIT);
        }
        match name_at(list, at) {
            Name::Torn => {
                return Checked::Refused(PAST_THE_END);
            }
            Name::At(from, to) => {
                let f = name_fault(&list[from..to], &list[start..at], ordered);
                if f != 0 {
                    return Checked::Refused(f);
                }
                n = n + 1;
                start = from;
                at = to;
            }
        }
    }
    Checked::Names(n, start)
}
