// Whom a quota holds for: its entities.
use fields::{Cursor, Step};
use std::io::Stdout;
use tool_words::parts::{has, say_text};
use tool_words::say;

const ENTITY: usize = 1;

// An entity's name. Kafka's word for an absent one is `<default>`.
fn say_entity_name(stdout: Stdout, entity: &[u8]) -> bool {
    if !has(entity, 2) {
        return say(stdout, b"<default>");
    }
    say_text(stdout, entity, 2)
}

// An entity: its type and its name.
fn say_entity(stdout: Stdout, entity: &[u8]) -> bool {
    say(stdout, b" ")
        && say_text(stdout, entity, 1)
        && say(stdout, b"=")
        && say_entity_name(stdout, entity)
}

// The entities of a quota, which are its first fields.
pub fn say_entities(stdout: Stdout, run: &[u8]) -> bool {
    let mut c = Cursor {
        at: 0,
        to: run.len(),
    };
    loop {
        match c.next(run) {
            Step::Field {
                tag,
                start,
                len,
                next,
            } => {
                if tag != ENTITY {
                    return true;
                }
                let end = start + len;
                if !say_entity(stdout, &run[start..end]) {
                    return false;
                }
                c = next;
            }
            Step::Torn => {
                return true;
            }
            Step::End => {
                return true;
            }
        }
    }
}
