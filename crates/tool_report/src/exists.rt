// What exists in an image: its snapshot read record by record.
use header::NO_OFFSET;
use image::is_image;
use keys::value_at;
use model::answers::{Answer, Rated, Value};
use model::{NodeId, kinds};
use std::io::Stdout;
use tool_details::say_details;
use tool_parting::snapshots::{end_of, more_by_one, take_snapshot};
use tool_plans::{say_alone, say_topic};
use tool_subjects::{say_node, say_subject};
use tool_words::parts::number_in;
use tool_words::{say, say_of};

// What was seen of a snapshot's records: how many of each, the node whose configs came last, and whether all that was
// said was written.
#[derive(Clone, Copy)]
struct Seen {
    brokers: u64,
    topics: u64,
    partitions: u64,
    configured: bool,
    node: u64,
    written: bool,
}

// The line of a record: what it is about, and what it says of it.
fn say_entry(stdout: Stdout, rec: &[u8]) -> bool {
    say_subject(stdout, rec) && say_details(stdout, rec) && say(stdout, b"\n")
}

// The node of a config.
fn node_of(rec: &[u8]) -> u64 {
    if rec.len() < 3 {
        return 0;
    }
    number_in(&rec[3..], 1)
}

// Whether the topic of a name is stored.
fn is_stored(image: &[u8], name: &[u8]) -> bool {
    let mut out = io::buffer();
    match lookup::topic(image, name, &mut out) {
        Answer::Used(n) => 0 < n,
        Answer::Refused(number) => false,
    }
}

// Whether the topic of a partition is stored.
fn has_topic(image: &[u8], rec: &[u8]) -> bool {
    if rec.len() < 3 {
        return false;
    }
    let p = value_at(rec, 1);
    let start = p.start;
    let end = p.end;
    is_stored(image, &rec[start..end])
}

// A throttle of a node, where one is set.
fn say_throttle(stdout: Stdout, image: &[u8], node: NodeId, kind: u8, words: &[u8]) -> bool {
    match lookup::throttle(image, node, kind) {
        Rated::Rate(n) => say_node(stdout, node.0)
            && say_of(stdout, words, n)
            && say(stdout, b" bytes a second\n"),
        Rated::None => true,
        Rated::Refused(number) => true,
    }
}

// The throttles of a node.
fn say_throttles(stdout: Stdout, image: &[u8], node: NodeId) -> bool {
    say_throttle(stdout, image, node, 0, b", leader's throttle: ")
        && say_throttle(stdout, image, node, 1, b", follower's throttle: ")
        && say_throttle(
            stdout,
            image,
            node,
            2,
            b", throttle between log directories: ",
        )
}

// A config of a broker; before a node's first one its throttles. A node's configs stand together.
fn with_config(stdout: Stdout, image: &[u8], rec: &[u8], seen: Seen) -> Seen {
    let node = node_of(rec);
    let mut next = seen;
    next.configured = true;
    next.node = node;
    next.written = (seen.configured && seen.node == node)
        || say_throttles(stdout, image, NodeId(node));
    next.written = next.written && say_entry(stdout, rec);
    next
}

// A partition, which its plan's lines have, where that is stored.
fn with_partition(stdout: Stdout, image: &[u8], rec: &[u8], seen: Seen) -> Seen {
    let mut next = seen;
    next.partitions = more_by_one(seen.partitions);
    next.written = has_topic(image, rec) || say_alone(stdout, rec);
    next
}

// Says what a record of the snapshot shows.
fn with_record(stdout: Stdout, image: &[u8], records: &[u8], rec: &[u8], seen: Seen) -> Seen {
    if rec.len() == 0 {
        return seen;
    }
    let mut next = seen;
    match rec[0] {
        kinds::TOPIC => {
            next.topics = more_by_one(seen.topics);
            next.written = say_topic(stdout, records, rec);
        }
        kinds::PARTITION => next = with_partition(stdout, image, rec, seen),
        kinds::BROKER_REGISTRATION => {
            next.brokers = more_by_one(seen.brokers);
            next.written = say_entry(stdout, rec);
        }
        kinds::BROKER_CONFIG => next = with_config(stdout, image, rec, seen),
        kinds::LOG_OFFSET => {}
        _ => next.written = say_entry(stdout, rec),
    }
    next
}

// Every record of the snapshot.
fn say_entries(stdout: Stdout, image: &[u8], records: &[u8]) -> Seen {
    let mut seen = Seen {
        brokers: 0,
        topics: 0,
        partitions: 0,
        configured: false,
        node: 0,
        written: true,
    };
    let mut at = 0;
    while at < records.len() {
        let end = end_of(records, at);
        seen = with_record(stdout, image, records, &records[at..end], seen);
        if !seen.written {
            return seen;
        }
        at = end;
    }
    seen
}

// How many partitions are short.
fn say_short(stdout: Stdout, image: &[u8]) -> bool {
    match lookup::short_count(image) {
        Value::Is(n) => say_of(stdout, b", short of in-sync replicas: ", n),
        Value::Refused(number) => true,
    }
}

// How many there are of each, and how many partitions are short.
fn say_counts(stdout: Stdout, image: &[u8], seen: Seen) -> bool {
    say_of(stdout, b"brokers: ", seen.brokers)
        && say_of(stdout, b", topics: ", seen.topics)
        && say_of(stdout, b", partitions: ", seen.partitions)
        && say_short(stdout, image)
        && say(stdout, b"\n")
}

// How much of the capacity is used.
fn say_weight(stdout: Stdout, image: &[u8]) -> bool {
    if !is_image(image) {
        return true;
    }
    say_of(stdout, b"weight: ", find::weight(image) as u64)
        && say_of(stdout, b" of ", image.len() as u64)
        && say(stdout, b"\n")
}

// A log offset: the only one of an image that is negative is -1.
fn say_offset(stdout: Stdout, offset: u64) -> bool {
    if offset == NO_OFFSET {
        return say(stdout, b"log offset: -1\n");
    }
    say_of(stdout, b"log offset: ", offset) && say(stdout, b"\n")
}

// How far an image got in the log.
pub fn say_log_offset(stdout: Stdout, image: &[u8]) -> bool {
    match lookup::log_offset(image) {
        Value::Is(offset) => say_offset(stdout, offset),
        Value::Refused(number) => true,
    }
}

// What an image holds.
pub fn say_all(stdout: Stdout, image: &[u8], out: &mut [u8]) -> bool {
    let n = take_snapshot(image, out);
    let seen = say_entries(stdout, image, &out[..n]);
    seen.written && say_counts(stdout, image, seen) && say_weight(stdout, image)
}
