// What a record is about, in the words of those who use it: a plan, a partition of it by number and by its sheet, a broker, a scope.
#![tactic(auto)]

pub mod entities;
pub mod sheets;

use crate::entities::say_entities;
use crate::sheets::say_partition;
use model::kinds;
use std::io::Stdout;
use tool_words::names::{say_kind, say_line};
use tool_words::parts::{number_in, part_of, say_id, say_number_in, say_signed_in, say_text};
use tool_words::{say, say_of};

// The node whose configs are every node's.
const DEFAULT: u64 = 0xffff_ffff_ffff_ffff;

// A node, by whose configs something is set.
pub fn say_node(stdout: Stdout, node: u64) -> bool {
    if node == DEFAULT {
        return say(stdout, b"every other broker");
    }
    say_of(stdout, b"broker ", node)
}

// A config of a broker.
fn say_config(stdout: Stdout, run: &[u8]) -> bool {
    say_text(stdout, run, 2) && say(stdout, b" of ") && say_node(stdout, number_in(run, 1))
}

// The names that a scope covers.
pub fn say_scope(stdout: Stdout, run: &[u8]) -> bool {
    if number_in(run, 2) == 0 {
        return say_text(stdout, run, 1);
    }
    say(stdout, b"every name that begins with ") && say_text(stdout, run, 1)
}

// A freeze, or its end.
fn say_freeze(stdout: Stdout, run: &[u8]) -> bool {
    if number_in(run, 3) == 0 {
        return say(stdout, b"thaw of ") && say_scope(stdout, run);
    }
    say(stdout, b"freeze of ") && say_scope(stdout, run)
}

// The partition of an update, which is nested.
fn say_updated(stdout: Stdout, run: &[u8]) -> bool {
    let p = part_of(run, 1);
    let start = p.start;
    let end = p.end;
    say_partition(stdout, &run[start..end])
}

// A quota's name, and whom it holds for.
fn say_quota(stdout: Stdout, run: &[u8]) -> bool {
    say_text(stdout, run, 2) && say(stdout, b" of") && say_entities(stdout, run)
}

// A feature and its level.
fn say_feature(stdout: Stdout, run: &[u8]) -> bool {
    say_text(stdout, run, 1) && say_signed_in(stdout, b" at level ", run, 2)
}

// What a record's words begin with, by its kind.
fn say_beginning(stdout: Stdout, kind: u8) -> bool {
    say_line(
        stdout,
        b"\n\
        topic \n\
        \n\
        registration of broker \n\
        deletion of topic \n\
        configs of topic \n\
        config \n\
        quota \n\
        producer ids of broker \n\
        unregistration of broker \n\
        kraft version \n\
        feature \n\
        configs of client metrics \n\
        features epoch\n\
        directory of a replica of \n\
        offset of \n\
        configs of group \n\
        registration of controller \n\
        \n\
        proposal \n\
        deletion of proposal \n\
        eligible leader replicas of \n\
        recovery of \n\
        update of \n\
        change of broker \n\
        unregistration of controller \n\
        log offset\n\
        ",
        kind,
    )
}

// The rest of its words, by its fields.
fn say_rest(stdout: Stdout, kind: u8, run: &[u8]) -> bool {
    match kind {
        kinds::TOPIC
        | kinds::DELETE_TOPIC
        | kinds::TOPIC_CONFIG
        | kinds::CLIENT_METRICS_CONFIG
        | kinds::GROUP_CONFIG => say_text(stdout, run, 1),
        kinds::PARTITION
        | kinds::PARTITION_DIR_ASSIGNMENT
        | kinds::PARTITION_OFFSET_ADVANCE
        | kinds::PARTITION_ELR
        | kinds::PARTITION_RECOVERY => say_partition(stdout, run),
        kinds::BROKER_CONFIG => say_config(stdout, run),
        kinds::CLIENT_QUOTA => say_quota(stdout, run),
        kinds::FEATURE_LEVEL => say_feature(stdout, run),
        kinds::TOPIC_FREEZE => say_freeze(stdout, run),
        kinds::BREAK_GLASS_PROPOSAL | kinds::DELETE_BREAK_GLASS_PROPOSAL => say_id(stdout, run, 1),
        kinds::PARTITION_UPDATE => say_updated(stdout, run),
        kinds::FEATURES_EPOCH | kinds::LOG_OFFSET => say_signed_in(stdout, b" ", run, 1),
        _ => say_number_in(stdout, b"", run, 1),
    }
}

// What a record that reads is about.
pub fn say_subject(stdout: Stdout, rec: &[u8]) -> bool {
    if rec.len() < 3 {
        return true;
    }
    say_beginning(stdout, rec[0]) && say_rest(stdout, rec[0], &rec[3..])
}

// A record that does not read: its kind.
pub fn say_unread(stdout: Stdout, kind: u8) -> bool {
    if kind == 0 || 26 < kind {
        return say_of(stdout, b"kind ", wire::wide(kind));
    }
    say(stdout, b"a record of kind ") && say_kind(stdout, kind)
}
