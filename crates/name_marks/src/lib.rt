// Indexes beside the names of a list, two bytes to a name: those of the names that a scope fits, from the first name that is not below it.
#![tactic(auto)]

ghost use Rattle.std.specs.Prelude.{◌≡◌, ◌++◌, ◌*◌, ◌≤◌, length, drop, replicate};
ghost use Rattle.model.specs.Order.{compare_bytes, is_below};
ghost use Rattle.name_marks.specs.Marks.{fits_name, marked, Accepted, jobs, Behind, Reached};

use names::{Name, name_at};
use std::cmp::Ordering;
use wire::{begins_with, compare, put, same};

// A place in a list of names, and how many names stand before it.
#[derive(Clone, Copy)]
pub struct Window {
    pub at: usize,
    pub n: usize,
}

// Whether a scope fits a name: a literal one is the name, a prefix begins it.
fn fits(name: &[u8], scope: &[u8], literal: bool) -> bool
    ensures { result ≡ fits_name literal scope.now name.now }
{
    if literal {
        return same(scope, name);
    }
    begins_with(name, scope)
}

// Whether a name is below a scope.
pub fn is_below(name: &[u8], scope: &[u8]) -> bool
    ensures { result ≡ is_below (compare_bytes name.now scope.now) }
{
    match compare(name, scope) {
        Ordering::Less => true,
        Ordering::Equal => false,
        Ordering::Greater => false,
    }
}

// Where the names from a window on are first not below a scope.
fn advance(list: &[u8], from: Window, scope: &[u8]) -> Window
    requires { Behind list.now from scope.now }
    ensures { Reached list.now result.at result.n scope.now }
{
    let mut at = from.at;
    let mut n = from.n;
    while at < list.len() {
        match name_at(list, at) {
            Name::Torn => {
                return Window { at, n };
            }
            Name::At(start, end) => {
                if !is_below(&list[start..end], scope) {
                    return Window { at, n };
                }
                at = end;
                n = n + 1;
            }
        }
    }
    Window { at, n }
}

// Writes an index for each name from a place on that a scope fits, up to the first that it does not fit.
fn mark(
    out: &mut [u8],
    list: &[u8],
    from: usize,
    before: usize,
    scope: &[u8],
    literal: bool,
    index: u64,
)
    requires { (Reached list.now from before scope.now) × (2 * length (jobs list.now) ≤ length out.old) }
    ensures { out.new ≡ marked (fits_name literal scope.now) index (jobs list.now) out.old }
{
    let mut at = from;
    let mut n = before;
    while at < list.len() {
        match name_at(list, at) {
            Name::Torn => {
                return;
            }
            Name::At(start, end) => {
                if !fits(&list[start..end], scope, literal) {
                    return;
                }
                put(out, 2 * n, 2, index);
                at = end;
                n = n + 1;
            }
        }
    }
}

// Writes an index for each name that a scope fits, among those from a window on. The window of the scopes to come.
pub fn mark_from(
    out: &mut [u8],
    list: &[u8],
    from: Window,
    scope: &[u8],
    literal: bool,
    index: u64,
) -> Window
    requires { Accepted list.now × (2 * length (jobs list.now) ≤ length out.old) × Behind list.now from scope.now }
    ensures { (out.new ≡ marked (fits_name literal scope.now) index (jobs list.now) out.old)
        × Behind list.now result scope.now }
{
    let w = advance(list, from, scope);
    mark(out, list, w.at, w.n, scope, literal, index);
    w
}

// Sets the first bytes of an output to hex FF.
pub fn fill(out: &mut [u8], n: usize)
    requires { n ≤ length out.old }
    ensures { out.new ≡ replicate n 255 ++ drop n out.old }
{
    let mut i = 0;
    while i < n {
        out[i] = 0xff;
        i = i + 1;
    }
}
