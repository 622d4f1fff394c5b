// Kinds by name, and numbers in words.
ghost use Rattle.std.specs.Prelude.{◌≤◌, length};

use crate::{complain, say};
use std::io::Stdout;

// Where the piece that begins at a place ends, pieces being parted by a byte.
fn piece_end(text: &[u8], at: usize, by: u8) -> usize
    requires { at ≤ length text.now }
    ensures { (at ≤ result) × (result ≤ length text.now) }
{
    let mut end = at;
    while end < text.len() {
        if text[end] == by {
            return end;
        }
        end += 1;
    }
    end
}

// Where the piece of a number begins, counted from 0: the last one where there are fewer.
fn piece_start(text: &[u8], number: u8, by: u8) -> usize
    ensures { result ≤ length text.now }
{
    let mut at = 0;
    let mut left = number;
    while 0 < left {
        let end = piece_end(text, at, by);
        if text.len() <= end {
            return at;
        }
        at = end + 1;
        left -= 1;
    }
    at
}

// The piece of a number.
fn say_piece(stdout: Stdout, text: &[u8], number: u8, by: u8) -> bool {
    let at = piece_start(text, number, by);
    let end = piece_end(text, at, by);
    say(stdout, &text[at..end])
}

// The line of a number.
pub fn say_line(stdout: Stdout, lines: &[u8], number: u8) -> bool {
    say_piece(stdout, lines, number, b'\n')
}

// The line of a number, on standard error.
pub fn complain_line(lines: &[u8], number: u8) {
    let at = piece_start(lines, number, b'\n');
    let end = piece_end(lines, at, b'\n');
    complain(&lines[at..end])
}

// A word of the line of a number.
fn say_word(stdout: Stdout, lines: &[u8], number: u8, word: u8) -> bool {
    let at = piece_start(lines, number, b'\n');
    let end = piece_end(lines, at, b'\n');
    say_piece(stdout, &lines[at..end], word, b' ')
}

// The name of a kind, as the Rust has it.
pub fn say_kind(stdout: Stdout, kind: u8) -> bool {
    say_line(
        stdout,
        b"no kind\n\
        Topic\n\
        Partition\n\
        BrokerRegistration\n\
        DeleteTopic\n\
        TopicConfig\n\
        BrokerConfig\n\
        ClientQuota\n\
        ProducerIds\n\
        UnregisterBroker\n\
        KRaftVersion\n\
        FeatureLevel\n\
        ClientMetricsConfig\n\
        FeaturesEpoch\n\
        PartitionDirAssignment\n\
        PartitionOffsetAdvance\n\
        GroupConfig\n\
        ControllerRegistration\n\
        TopicFreeze\n\
        BreakGlassProposal\n\
        DeleteBreakGlassProposal\n\
        PartitionElr\n\
        PartitionRecovery\n\
        PartitionUpdate\n\
        BrokerRegistrationChange\n\
        UnregisterController\n\
        LogOffset\n\
        no kind",
        kind,
    )
}

// What a number says.
pub fn say_verdict(stdout: Stdout, number: u8) -> bool {
    say_line(
        stdout,
        b"accepted\n\
        no image, or no capacity for one\n\
        the record runs past the end of the file\n\
        unknown kind\n\
        a wrong field, or one missing\n\
        a field over its limit\n\
        the topic exists with another id or replication factor, or with as many partitions\n\
        unknown topic or partition\n\
        a change at another epoch, or of an unknown broker\n\
        an unregistration at another epoch, or of an unknown broker\n\
        unknown controller\n\
        the next producer id is not above the stored one\n\
        producer ids at another broker epoch, or of an unknown broker\n\
        an empty freeze scope\n\
        the proposal is consumed\n\
        the proposal is withdrawn\n\
        the approvals do not begin with the stored ones\n\
        the offset leaves its range\n\
        no room\n\
        the output is too short\n\
        a node twice in the replicas\n\
        the log offset is not above the stored one\n\
        the log offset is missing at the start, or stands later\n\
        the log offset given is below -1\n\
        an unlawful topic name\n\
        no verdict",
        number,
    )
}

// The name of a kind's field, by its tag.
pub fn say_field_name(stdout: Stdout, kind: u8, tag: u8) -> bool {
    say_word(
        stdout,
        b"no field\n\
        field name topic_id partitions replication_factor\n\
        field topic partition leader replicas isr leader_epoch adding_replicas removing_replicas directories partition_epoch\n\
        field node_id broker_epoch incarnation_id host port rack endpoints log_dirs fenced in_controlled_shutdown cordoned_log_dirs features\n\
        field name\n\
        field topic overrides\n\
        field node_id config_name config_value\n\
        field entity config_key config_value\n\
        field broker_id broker_epoch next_producer_id\n\
        field node_id broker_epoch\n\
        field kraft_version\n\
        field name level\n\
        field name configs\n\
        field epoch\n\
        field topic partition replica directory\n\
        field topic partition count\n\
        field group_id configs\n\
        field node_id incarnation_id zk_migration_ready endpoints features\n\
        field scope pattern_type frozen reason set_by set_at_ms proposal_id key_id signature\n\
        field proposal_id action target proposer reason created_at_ms expires_at_ms approvals consumed_at_ms withdrawn\n\
        field proposal_id\n\
        field topic partition eligible_leader_replicas last_known_elr\n\
        field topic partition state\n\
        field partition eligible_leader_replicas last_known_elr recovery_state\n\
        field node_id broker_epoch fenced in_controlled_shutdown log_dirs cordoned_log_dirs\n\
        field node_id\n\
        field offset",
        kind,
        tag,
    )
}
