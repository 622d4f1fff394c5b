// The entities of a quota, in order.
ghost use Rattle.std.specs.Prelude.{◌≡◌, ◌&&◌};
ghost use Rattle.std.proofs.Math.Seq.{slice};
ghost use Rattle.model.specs.Order.{is_below};
ghost use Rattle.model.specs.Choice.{is_some};
ghost use Rattle.model.specs.Run.{field as field_of, values};
ghost use Rattle.model.specs.Contents.{entity_order, entities_in_order};
ghost use Rattle.fields.specs.Fields.{Inside};
ghost use Rattle.entries.specs.Entries.{IsRecord, record_in};
ghost use Rattle.image_entries.specs.Quotas.{EntitiesAs};

use fields::{Cursor, Found, Step};
use keys::compare_entity;
use reader::field;
use std::cmp::Ordering;

// Whether the entity at one cursor is below the one at another. None is below nothing, which ends at 0.
fn is_below(e: &[u8], a: Cursor, b: Cursor) -> bool
    requires { Inside e.now a × Inside e.now b }
    ensures { result ≡ is_below (entity_order (slice a.at a.to e.now) (slice b.at b.to e.now)) }
{
    if b.to == 0 {
        return false;
    }
    match compare_entity(e, a, e, b) {
        Ordering::Less => true,
        Ordering::Equal => false,
        Ordering::Greater => false,
    }
}

// What the entities of a quota come to: where the fields behind them begin, or that one is below the one before it.
#[derive(Clone, Copy)]
pub enum Entities {
    InOrder(usize),
    OutOfOrder,
}

// Looks at the entities one by one. The first has nothing before it: no type and no name, which no entity is below.
fn look_at(e: &[u8]) -> Entities
    requires { IsRecord e.now }
    ensures { EntitiesAs e.now result }
{
    let mut c = Cursor { at: 3, to: e.len() };
    let mut last = Cursor { at: 0, to: 0 };
    loop {
        match c.next(e) {
            Step::Field {
                tag,
                start,
                len,
                next,
            } => {
                if tag != 1 {
                    return Entities::InOrder(c.at);
                }
                let end = start + len;
                let entity = Cursor { at: start, to: end };
                if is_below(e, entity, last) {
                    return Entities::OutOfOrder;
                }
                last = entity;
                c = next;
            }
            Step::Torn => {
                return Entities::InOrder(c.at);
            }
            Step::End => {
                return Entities::InOrder(c.at);
            }
        }
    }
}

// Whether no entity is above the next one.
pub fn entities_in_order(e: &[u8]) -> bool
    requires { IsRecord e.now }
    ensures { result ≡ entities_in_order (values 1 (record_in e.now).run) }
{
    match look_at(e) {
        Entities::InOrder(at) => true,
        Entities::OutOfOrder => false,
    }
}

// Whether a quota has a value, which is sought behind its entities, and no entity is above the next one.
pub fn has_value_in_order(e: &[u8]) -> bool
    requires { IsRecord e.now }
    ensures { result ≡ (is_some (field_of 3 (record_in e.now).run) && entities_in_order (values 1 (record_in e.now).run)) }
{
    match look_at(e) {
        Entities::InOrder(at) => match field(e, Cursor { at, to: e.len() }, 3) {
            Found::Part { start, len } => true,
            Found::Missing => false,
        },
        Entities::OutOfOrder => false,
    }
}
