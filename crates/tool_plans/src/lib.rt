// A plan of a snapshot: which of its sheets exist, and each of its partitions.
#![tactic(auto)]

use access::{Epoch, Node, leader_epoch, node_id};
use keys::value_at;
use model::kinds::PARTITION;
use nodes::outside_in;
use std::io::Stdout;
use tool_parting::snapshots::end_of;
use tool_subjects::sheets::{LOAD_SHEET, ROOM_LIST, say_number_and_sheet, say_partition};
use tool_words::parts::{number_in, part_of, say_signed_in, say_text};
use tool_words::{say, say_integer, say_of};

// The most bytes of a list of nodes.
const NODES: usize = 512;

// Whether a record is a partition whose topic is the one of another record.
fn is_partition_of(rec: &[u8], topic: &[u8]) -> bool {
    if rec.len() < 3 || topic.len() < 3 {
        return false;
    }
    let p = value_at(rec, 1);
    let q = value_at(topic, 1);
    let a = p.start;
    let b = p.end;
    let c = q.start;
    let d = q.end;
    rec[0] == PARTITION && wire::same(&rec[a..b], &topic[c..d])
}

// The number of a record's partition.
fn number_of(rec: &[u8]) -> u64 {
    if rec.len() < 3 {
        return 0;
    }
    number_in(&rec[3..], 2)
}

// Whether a topic has a partition of a number.
fn has_partition(records: &[u8], topic: &[u8], number: u64) -> bool {
    let mut at = 0;
    while at < records.len() {
        let end = end_of(records, at);
        if is_partition_of(&records[at..end], topic) && number_of(&records[at..end]) == number {
            return true;
        }
        at = end;
    }
    false
}

// The leader of a partition.
fn say_leader(stdout: Stdout, rec: &[u8]) -> bool {
    match node_id(rec) {
        Node::Is(node) => say_of(stdout, b": leader ", node.0),
        Node::Missing => say(stdout, b": no leader"),
    }
}

// The epoch of a partition's leader.
fn say_epoch(stdout: Stdout, rec: &[u8]) -> bool {
    match leader_epoch(rec) {
        Epoch::Is(epoch) => say(stdout, b" at epoch ") && say_integer(stdout, epoch.0 as i64),
        Epoch::Missing => say(stdout, b" at no epoch"),
    }
}

// How many replicas of a partition are not being added, 0 where there are too many.
fn settled_replicas(run: &[u8]) -> usize {
    let replicas = part_of(run, 4);
    let adding = part_of(run, 7);
    let first = replicas.start;
    let last = replicas.end;
    let from = adding.start;
    let to = adding.end;
    if NODES < last - first {
        return 0;
    }
    if NODES < to - from {
        return 0;
    }
    outside_in(&run[first..last], &run[from..to])
}

// Says where a partition is short: fewer replicas are in sync than it has, those that are being added not counted.
fn say_short(stdout: Stdout, run: &[u8]) -> bool {
    let isr = part_of(run, 5);
    let in_sync = (isr.end - isr.start) / 8;
    let replicas = settled_replicas(run);
    if replicas <= in_sync {
        return true;
    }
    say_of(stdout, b", short: ", in_sync as u64)
        && say_of(stdout, b" of ", replicas as u64)
        && say(stdout, b" in sync")
}

// Who leads a partition, and where it is short.
fn say_led(stdout: Stdout, rec: &[u8]) -> bool {
    if rec.len() < 3 {
        return true;
    }
    say_leader(stdout, rec)
        && say_epoch(stdout, rec)
        && say_short(stdout, &rec[3..])
        && say(stdout, b"\n")
}

// The line of a partition below its plan's.
fn say_line_of(stdout: Stdout, rec: &[u8]) -> bool {
    if rec.len() < 3 {
        return true;
    }
    say_number_and_sheet(stdout, b"  partition ", &rec[3..]) && say_led(stdout, rec)
}

// The line of a partition whose topic is not stored.
pub fn say_alone(stdout: Stdout, rec: &[u8]) -> bool {
    if rec.len() < 3 {
        return true;
    }
    say_partition(stdout, &rec[3..])
        && say(stdout, b", a topic that is not stored")
        && say_led(stdout, rec)
}

// A partition that is neither of the two sheets, by its number.
fn say_further(stdout: Stdout, rec: &[u8]) -> bool {
    if number_of(rec) <= LOAD_SHEET {
        return true;
    }
    if rec.len() < 3 {
        return true;
    }
    say_signed_in(stdout, b", partition ", &rec[3..], 2)
}

// A record, where it is a partition of a topic: in a line of its own, or by its number.
fn say_one(stdout: Stdout, rec: &[u8], topic: &[u8], line: bool) -> bool {
    if !is_partition_of(rec, topic) {
        return true;
    }
    if line {
        return say_line_of(stdout, rec);
    }
    say_further(stdout, rec)
}

// The partitions of a topic, in a line each, or those beyond the two sheets by their numbers.
fn say_partitions(stdout: Stdout, records: &[u8], topic: &[u8], line: bool) -> bool {
    let mut at = 0;
    while at < records.len() {
        let end = end_of(records, at);
        if !say_one(stdout, &records[at..end], topic, line) {
            return false;
        }
        at = end;
    }
    true
}

fn say_whether(stdout: Stdout, words: &[u8], exists: bool) -> bool {
    if exists {
        return say(stdout, words) && say(stdout, b" yes");
    }
    say(stdout, words) && say(stdout, b" no")
}

// Which of a plan's sheets exist.
fn say_sheets(stdout: Stdout, records: &[u8], topic: &[u8]) -> bool {
    let rooms = has_partition(records, topic, ROOM_LIST);
    let loads = has_partition(records, topic, LOAD_SHEET);
    say_whether(stdout, b": room list", rooms) && say_whether(stdout, b", load sheet", loads)
}

// What the cluster counts of a topic.
fn say_counts(stdout: Stdout, run: &[u8]) -> bool {
    say_signed_in(stdout, b"; count ", run, 3)
        && say_signed_in(stdout, b", replication factor ", run, 4)
        && say(stdout, b"\n")
}

// The line of a plan: which sheets exist, what partitions there are beside them, and what the cluster counts.
fn say_line(stdout: Stdout, records: &[u8], topic: &[u8]) -> bool {
    if topic.len() < 3 {
        return true;
    }
    if !say_text(stdout, &topic[3..], 1) || !say_sheets(stdout, records, topic) {
        return false;
    }
    say_partitions(stdout, records, topic, false) && say_counts(stdout, &topic[3..])
}

// A plan, and each of its partitions.
pub fn say_topic(stdout: Stdout, records: &[u8], topic: &[u8]) -> bool {
    say_line(stdout, records, topic) && say_partitions(stdout, records, topic, true)
}
