// Field access by tag and by name, on the record that some bytes begin with. Later bytes are not looked at, and a record that is cut has no
// fields.
#![tactic(auto)]

ghost use Rattle.std.specs.Prelude.{◌≡◌, ◌≤◌};
ghost use Rattle.model.specs.Number.{span};
ghost use Rattle.model.specs.Run.{run_of};
ghost use Rattle.fields.specs.Fields.{place_of};
ghost use Rattle.access.specs.Access.{body_in, field_number, number_in, signed as signed_of, kind_tag, node_in, epoch_in, quota_in, found_number, Below};

use fields::Found;
use model::{LeaderEpoch, NodeId};
use quota::Quota;
use reader::find;
use wire::{get, get16, size};

// Where a record's fields begin: after its kind and its body's length.
const BODY: usize = 3;

// Where the first field of a tag has its value, in the record at the start of `s`.
pub fn field_of(s: &[u8], tag: u8) -> Found
    ensures { result ≡ place_of tag 3 (run_of (body_in s.now)) }
{
    if s.len() < 3 {
        return Found::Missing;
    }
    let len = get16(s, 1);
    if s.len() - 3 < len {
        return Found::Missing;
    }
    let end = BODY + len;
    find(&s[..end], BODY, size(tag))
}

// A field's number, missing where there is no such field or it has another length.
#[derive(Clone, Copy)]
enum Number {
    Is(u64),
    Missing,
}

// The number of a field that has `width` bytes.
fn field_number(s: &[u8], tag: u8, width: usize) -> Number
    requires { width ≤ 8 }
    ensures { (found_number result ≡ field_number s.now tag width) × Below (span width) result }
{
    match field_of(s, tag) {
        Found::Part { start, len } => {
            if len != width {
                return Number::Missing;
            }
            Number::Is(get(s, start, width))
        }
        Found::Missing => Number::Missing,
    }
}

// The same of a record of a kind, missing of any other.
fn number_in(s: &[u8], kind: u8, tag: u8, width: usize) -> Number
    requires { width ≤ 8 }
    ensures { (found_number result ≡ number_in s.now kind tag width) × Below (span width) result }
{
    if s.len() == 0 {
        return Number::Missing;
    }
    if s[0] != kind {
        return Number::Missing;
    }
    field_number(s, tag, width)
}

// The signed number of the same four bytes.
fn signed(n: u32) -> i32
    ensures { result ≡ signed_of 4 n }
{
    if n < 0x8000_0000 {
        return n as i32;
    }
    -1 - ((0xffff_ffff - n) as i32)
}

// A node, where there is one.
#[derive(Clone, Copy)]
pub enum Node {
    Is(NodeId),
    Missing,
}

// By kind, the tag of the field that is a node; 0 where a kind has none.
const NODE_TAGS: [u8; 27] = [
    0, // no kind
    0, // 1 Topic
    3, // 2 Partition, leader
    1, // 3 BrokerRegistration, node_id
    0, // 4 DeleteTopic
    0, // 5 TopicConfig
    1, // 6 BrokerConfig, node_id
    0, // 7 ClientQuota
    1, // 8 ProducerIds, broker_id
    1, // 9 UnregisterBroker, node_id
    0, // 10 KRaftVersion
    0, // 11 FeatureLevel
    0, // 12 ClientMetricsConfig
    0, // 13 FeaturesEpoch
    3, // 14 PartitionDirAssignment, replica
    0, // 15 PartitionOffsetAdvance
    0, // 16 GroupConfig
    1, // 17 ControllerRegistration, node_id
    0, // 18 TopicFreeze
    0, // 19 BreakGlassProposal
    0, // 20 DeleteBreakGlassProposal
    0, // 21 PartitionElr
    0, // 22 PartitionRecovery
    0, // 23 PartitionUpdate
    1, // 24 BrokerRegistrationChange, node_id
    1, // 25 UnregisterController, node_id
    0, // 26 LogOffset
];

fn node_tag(kind: u8) -> u8
    ensures { result ≡ kind_tag kind }
{
    if 27 <= kind {
        return 0;
    }
    NODE_TAGS[kind as usize]
}

// The node of the record at the start of `s`, by its kind: a partition's leader, a broker, a controller or a replica.
pub fn node_id(s: &[u8]) -> Node
    ensures { result ≡ node_in s.now }
{
    if s.len() == 0 {
        return Node::Missing;
    }
    let tag = node_tag(s[0]);
    if tag == 0 {
        return Node::Missing;
    }
    match field_number(s, tag, 8) {
        Number::Is(n) => Node::Is(NodeId(n)),
        Number::Missing => Node::Missing,
    }
}

// A leader epoch, where there is one.
#[derive(Clone, Copy)]
pub enum Epoch {
    Is(LeaderEpoch),
    Missing,
}

// The leader epoch of a Partition record: tag 6, where it has four bytes.
pub fn leader_epoch(s: &[u8]) -> Epoch
    ensures { result ≡ epoch_in s.now }
{
    match number_in(s, 2, 6, 4) {
        Number::Is(n) => Epoch::Is(LeaderEpoch(signed(n as u32))),
        Number::Missing => Epoch::Missing,
    }
}

// A quota's value, where there is one.
#[derive(Clone, Copy)]
pub enum QuotaValue {
    Is(Quota),
    Missing,
}

// The value of a ClientQuota record: tag 3, where it has eight bytes.
pub fn quota_value(s: &[u8]) -> QuotaValue
    ensures { result ≡ quota_in s.now }
{
    match number_in(s, 7, 3, 8) {
        Number::Is(n) => QuotaValue::Is(quota::from_bits(n)),
        Number::Missing => QuotaValue::Missing,
    }
}
