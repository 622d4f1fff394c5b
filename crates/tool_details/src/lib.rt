// What a record of a snapshot says of its subject, kind by kind.
#![tactic(auto)]

mod lists;
mod quotas;

use crate::lists::{say_nodes, say_pairs};
use crate::quotas::say_limit;
use model::kinds;
use std::io::Stdout;
use tool_words::names::say_line;
use tool_words::parts::{number_in, part_of, say_number_in, say_signed_in, say_text};
use tool_words::say;

// A word, and the name of a field behind it, where it has one.
fn say_named(stdout: Stdout, words: &[u8], run: &[u8], tag: usize) -> bool {
    let p = part_of(run, tag);
    if p.end <= p.start {
        return true;
    }
    say(stdout, words) && say_text(stdout, run, tag)
}

// A word, where a field says yes.
fn say_if(stdout: Stdout, run: &[u8], tag: usize, words: &[u8]) -> bool {
    number_in(run, tag) == 0 || say(stdout, words)
}

// Where a broker is, and how it stands.
fn say_broker(stdout: Stdout, run: &[u8]) -> bool {
    say_named(stdout, b", host ", run, 4)
        && say_number_in(stdout, b", port ", run, 5)
        && say_signed_in(stdout, b", epoch ", run, 2)
        && say_if(stdout, run, 9, b", fenced")
        && say_if(stdout, run, 10, b", in controlled shutdown")
}

// A broker's config.
fn say_value(stdout: Stdout, run: &[u8]) -> bool {
    say(stdout, b": ") && say_text(stdout, run, 3)
}

// Who froze a scope, since when, and why.
fn say_freeze(stdout: Stdout, run: &[u8]) -> bool {
    say_named(stdout, b", by ", run, 5)
        && say_signed_in(stdout, b", since ", run, 6)
        && say(stdout, b" ms")
        && say_named(stdout, b": ", run, 4)
}

// What a proposal is for, by its number.
fn say_action(stdout: Stdout, action: u8) -> bool {
    say_line(
        stdout,
        b"to thaw\n\
        to elect leaders uncleanly of\n\
        to recover uncleanly\n\
        to unregister broker\n\
        to cancel the reassignment of\n\
        to delete topic\n\
        to delete records of\n\
        for",
        action,
    )
}

// A proposal's action, as a byte.
fn action_in(run: &[u8]) -> u8 {
    let n = number_in(run, 2);
    if n < 7 {
        return n as u8;
    }
    7
}

// Who proposed it, when and why, and what became of it.
fn say_proposed(stdout: Stdout, run: &[u8]) -> bool {
    say_named(stdout, b", by ", run, 4)
        && say_signed_in(stdout, b", since ", run, 6)
        && say(stdout, b" ms")
        && say_named(stdout, b": ", run, 5)
        && say_if(stdout, run, 9, b"; consumed")
        && say_if(stdout, run, 10, b"; withdrawn")
}

fn say_proposal(stdout: Stdout, run: &[u8]) -> bool {
    say(stdout, b": ")
        && say_action(stdout, action_in(run))
        && say_named(stdout, b" ", run, 3)
        && say_proposed(stdout, run)
}

fn say_eligible(stdout: Stdout, run: &[u8]) -> bool {
    say(stdout, b":")
        && say_nodes(stdout, run, 3)
        && say(stdout, b"; last known:")
        && say_nodes(stdout, run, 4)
}

// Where producer ids go on.
fn say_ids(stdout: Stdout, run: &[u8]) -> bool {
    say_signed_in(stdout, b" at epoch ", run, 2) && say_signed_in(stdout, b": next ", run, 3)
}

// The configs of a topic, a group or client metrics.
fn say_configs(stdout: Stdout, run: &[u8]) -> bool {
    say(stdout, b":") && say_pairs(stdout, run, 2)
}

// What a record of a kind says of its subject.
fn say_of_kind(stdout: Stdout, kind: u8, run: &[u8]) -> bool {
    match kind {
        kinds::BROKER_REGISTRATION => say_broker(stdout, run),
        kinds::TOPIC_CONFIG | kinds::CLIENT_METRICS_CONFIG | kinds::GROUP_CONFIG => say_configs(
            stdout, run,
        ),
        kinds::BROKER_CONFIG => say_value(stdout, run),
        kinds::PRODUCER_IDS => say_ids(stdout, run),
        kinds::PARTITION_OFFSET_ADVANCE => say_signed_in(stdout, b": ", run, 3),
        kinds::TOPIC_FREEZE => say_freeze(stdout, run),
        kinds::BREAK_GLASS_PROPOSAL => say_proposal(stdout, run),
        kinds::PARTITION_ELR => say_eligible(stdout, run),
        kinds::PARTITION_RECOVERY => say(stdout, b": recovering"),
        _ => true,
    }
}

// What a record says of its subject.
pub fn say_details(stdout: Stdout, rec: &[u8]) -> bool {
    if rec.len() < 3 {
        return true;
    }
    if rec[0] == kinds::CLIENT_QUOTA {
        return say(stdout, b": ") && say_limit(stdout, rec);
    }
    say_of_kind(stdout, rec[0], &rec[3..])
}
