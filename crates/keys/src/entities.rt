// The entities of two quotas, element by element: type, then name, an absent name first, a list before its longer continuations.
ghost use Rattle.std.specs.Prelude.{◌≡◌};
ghost use Rattle.model.specs.Order.{ordering};
ghost use Rattle.model.specs.Run.{field as field_of, values};
ghost use Rattle.fields.specs.Fields.{fields_from, Inside};
ghost use Rattle.keys.specs.Keys.{run_in};
ghost use Rattle.keys.specs.Entities.{name_order, entity_order, compare_entities, Element, onward, Quotas};

use fields::{Cursor, Found, Step};
use reader::field;
use std::cmp::Ordering;

// What stands at a cursor: an element's place and the cursor after it, or no more elements.
#[derive(Clone, Copy)]
pub enum Entity {
    At(usize, usize, Cursor),
    Last,
}

fn next_entity(s: &[u8], c: Cursor) -> Entity
    requires { Inside s.now c }
    ensures { onward s.now c result }
{
    match c.next(s) {
        Step::Field {
            tag,
            start,
            len,
            next,
        } => {
            if tag == 1 {
                return Entity::At(start, start + len, next);
            }
            Entity::Last
        }
        Step::Torn => Entity::Last,
        Step::End => Entity::Last,
    }
}

// The order of two elements' names: an absent one first.
fn compare_names(a: &[u8], x: Cursor, b: &[u8], y: Cursor) -> Ordering
    requires { Inside a.now x × Inside b.now y }
    ensures { ordering result ≡ name_order (fields_from a.now x) (fields_from b.now y) }
{
    match field(a, x, 2) {
        Found::Part { start, len } => {
            let end = start + len;
            match field(b, y, 2) {
                Found::Part {
                    start: from,
                    len: n,
                } => {
                    let to = from + n;
                    wire::compare(&a[start..end], &b[from..to])
                }
                Found::Missing => Ordering::Greater,
            }
        }
        Found::Missing => match field(b, y, 2) {
            Found::Part {
                start: from,
                len: n,
            } => Ordering::Less,
            Found::Missing => Ordering::Equal,
        },
    }
}

// Where an element's type stands, or nothing where there is none.
fn part_of(s: &[u8], c: Cursor) -> Cursor
    requires { Inside s.now c }
    ensures { Element s.now c result }
{
    match fields::field(s, c, 1) {
        Found::Part { start, len } => Cursor {
            at: start,
            to: start + len,
        },
        Found::Missing => Cursor { at: 0, to: 0 },
    }
}

// The fields that an element's name is among: those behind its type, where that comes first.
fn behind(s: &[u8], c: Cursor, p: Cursor) -> Cursor
    requires { Inside s.now c × Element s.now c p }
    ensures { Inside s.now result × (field_of 2 (fields_from s.now result) ≡ field_of 2 (fields_from s.now c)) }
{
    if p.at == c.at + 3 {
        return Cursor { at: p.to, to: c.to };
    }
    c
}

// The order of two entities, each the fields at a cursor: type, then name, an absent name first.
pub fn compare_entity(a: &[u8], x: Cursor, b: &[u8], y: Cursor) -> Ordering
    requires { Inside a.now x × Inside b.now y }
    ensures { ordering result ≡ entity_order (fields_from a.now x) (fields_from b.now y) }
{
    let p = part_of(a, x);
    let q = part_of(b, y);
    let ps = p.at;
    let pe = p.to;
    let qs = q.at;
    let qe = q.to;
    match wire::compare(&a[ps..pe], &b[qs..qe]) {
        Ordering::Less => Ordering::Less,
        Ordering::Equal => compare_names(a, behind(a, x, p), b, behind(b, y, q)),
        Ordering::Greater => Ordering::Greater,
    }
}

// The order of two quotas' entities.
pub fn compare_entities(a: &[u8], b: &[u8]) -> Ordering
    requires { Quotas a.now b.now }
    ensures { ordering result ≡ compare_entities (values 1 (run_in a.now)) (values 1 (run_in b.now)) }
{
    let mut c = Cursor { at: 3, to: a.len() };
    let mut d = Cursor { at: 3, to: b.len() };
    loop {
        match next_entity(a, c) {
            Entity::At(start, end, next) => match next_entity(b, d) {
                Entity::At(from, to, after) => {
                    let x = Cursor { at: start, to: end };
                    let y = Cursor { at: from, to };
                    match compare_entity(a, x, b, y) {
                        Ordering::Less => {
                            return Ordering::Less;
                        }
                        Ordering::Equal => {
                            c = next;
                            d = after;
                        }
                        Ordering::Greater => {
                            return Ordering::Greater;
                        }
                    }
                }
                Entity::Last => {
                    return Ordering::Greater;
                }
            },
            Entity::Last => match next_entity(b, d) {
                Entity::At(from, to, after) => {
                    return Ordering::Less;
                }
                Entity::Last => {
                    return Ordering::Equal;
                }
            },
        }
    }
}
