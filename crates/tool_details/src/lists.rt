// The lists in a record: nodes in one field, pairs in a field each.
ghost use Rattle.std.specs.Prelude.{◌≤◌, length};

use fields::{Cursor, Step};
use std::io::Stdout;
use tool_words::parts::{part_of, say_text};
use tool_words::{say, say_of};

// The nodes of a list, eight bytes each.
fn say_all_nodes(stdout: Stdout, list: &[u8]) -> bool {
    let mut at = 0;
    while 8 <= list.len() - at {
        if !say_of(stdout, b" ", wire::get(list, at, 8)) {
            return false;
        }
        at += 8;
    }
    true
}

// The nodes of a field.
pub fn say_nodes(stdout: Stdout, run: &[u8], tag: usize) -> bool {
    let p = part_of(run, tag);
    let start = p.start;
    let end = p.end;
    say_all_nodes(stdout, &run[start..end])
}

// A pair: its key and its value.
fn say_pair(stdout: Stdout, pair: &[u8]) -> bool {
    say(stdout, b" ") && say_text(stdout, pair, 1) && say(stdout, b"=") && say_text(stdout, pair, 2)
}

// The pairs of a tag.
pub fn say_pairs(stdout: Stdout, run: &[u8], sought: usize) -> bool {
    let mut c = Cursor {
        at: 0,
        to: run.len(),
    };
    loop {
        match c.next(run) {
            Step::Field {
                tag,
                start,
                len,
                next,
            } => {
                c = next;
                if tag != sought {
                    continue;
                }
                let end = start + len;
                if !say_pair(stdout, &run[start..end]) {
                    return false;
                }
            }
            Step::Torn => {
                return true;
            }
            Step::End => {
                return true;
            }
        }
    }
}
