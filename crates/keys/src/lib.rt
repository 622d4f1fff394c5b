// Keys: how two encoded records stand to each other in an image, straight from their bytes.
#![tactic(auto)]

mod entities;
mod values;

ghost use Rattle.std.specs.Prelude.{◌≡◌, ◌≤◌, length};
ghost use Rattle.std.proofs.Math.Seq.{slice};
ghost use Rattle.model.specs.Number.{number, bytes, place};
ghost use Rattle.model.specs.Order.{compare_bytes, compare_keys, then_by, ordering};
ghost use Rattle.model.specs.Run.{value};
ghost use Rattle.model.specs.Key.{partition_part};
ghost use Rattle.keys.specs.Keys.{run_in, rank_of, key_in, Keyed};
ghost use Rattle.keys.specs.Forms.{form_of, by_form, FormFits};
ghost use Rattle.keys.specs.Entities.{Quotas};

use entities::compare_entities;
pub use entities::compare_entity;
use fields::Found;
use model::{NodeId, kinds};
use reader::find;
use std::cmp::Ordering;
pub use values::{place_in, same_value};

// Where a record's fields begin: after its kind and its body's length.
const BODY: usize = 3;

// A part of a slice.
#[derive(Clone, Copy)]
pub struct Part {
    pub start: usize,
    pub end: usize,
}

// A group's place in a snapshot, 0 for the kinds that are in none.
pub fn rank_of(kind: u8) -> u8
    ensures { result ≡ rank_of kind }
{
    match kind {
        kinds::TOPIC => 4,
        kinds::PARTITION => 5,
        kinds::BROKER_REGISTRATION => 1,
        kinds::DELETE_TOPIC => 0,
        kinds::TOPIC_CONFIG => 9,
        kinds::BROKER_CONFIG => 3,
        kinds::CLIENT_QUOTA => 10,
        kinds::PRODUCER_IDS => 11,
        kinds::UNREGISTER_BROKER => 0,
        kinds::KRAFT_VERSION => 18,
        kinds::FEATURE_LEVEL => 16,
        kinds::CLIENT_METRICS_CONFIG => 12,
        kinds::FEATURES_EPOCH => 17,
        kinds::PARTITION_DIR_ASSIGNMENT => 0,
        kinds::PARTITION_OFFSET_ADVANCE => 6,
        kinds::GROUP_CONFIG => 13,
        kinds::CONTROLLER_REGISTRATION => 2,
        kinds::TOPIC_FREEZE => 14,
        kinds::BREAK_GLASS_PROPOSAL => 15,
        kinds::DELETE_BREAK_GLASS_PROPOSAL => 0,
        kinds::PARTITION_ELR => 7,
        kinds::PARTITION_RECOVERY => 8,
        kinds::PARTITION_UPDATE => 0,
        kinds::BROKER_REGISTRATION_CHANGE => 0,
        kinds::UNREGISTER_CONTROLLER => 0,
        0 | 26..=255 => 0,
    }
}

// Where a field's value stands in a record, or nothing where there is none.
pub fn value_at(s: &[u8], tag: usize) -> Part
    requires { 3 ≤ length s.now }
    ensures { (slice result.start result.end s.now ≡ value tag (run_in s.now)) × (result.start ≤ result.end) × (result.end ≤ length s.now) }
{
    match find(s, BODY, tag) {
        Found::Part { start, len } => Part {
            start,
            end: start + len,
        },
        Found::Missing => Part { start: 0, end: 0 },
    }
}

// The number that a field of a width spells.
pub fn number_at(s: &[u8], tag: usize, width: usize) -> u64
    requires { (3 ≤ length s.now) × (width ≤ 8) × (length (value tag (run_in s.now)) ≡ width) }
    ensures { result ≡ number (value tag (run_in s.now)) }
{
    let p = value_at(s, tag);
    wire::get(s, p.start, width)
}

// The node in a field.
pub fn node_at(s: &[u8], tag: usize) -> NodeId
    requires { (3 ≤ length s.now) × (length (value tag (run_in s.now)) ≡ 8) }
    ensures { bytes 8 result.0 ≡ value tag (run_in s.now) }
{
    NodeId(number_at(s, tag, 8))
}

// The order of two records' fields of a tag, by bytes.
pub fn compare_field(a: &[u8], b: &[u8], tag: usize) -> Ordering
    requires { (3 ≤ length a.now) × (3 ≤ length b.now) }
    ensures { ordering result ≡ compare_bytes (value tag (run_in a.now)) (value tag (run_in b.now)) }
{
    let p = value_at(a, tag);
    let q = value_at(b, tag);
    let ps = p.start;
    let pe = p.end;
    let qs = q.start;
    let qe = q.end;
    wire::compare(&a[ps..pe], &b[qs..qe])
}

// A partition's number as its place among all.
fn partition_place(s: &[u8]) -> u64
    requires { (3 ≤ length s.now) × (length (value 2 (run_in s.now)) ≡ 4) }
    ensures { result ≡ place 4 (number (value 2 (run_in s.now))) }
{
    let p = value_at(s, 2);
    let start = p.start;
    (wire::get(s, start, 4) + 0x8000_0000) % 0x1_0000_0000
}

// The order of two records' partition numbers, by value.
fn compare_partitions(a: &[u8], b: &[u8]) -> Ordering
    requires { (3 ≤ length a.now) × (3 ≤ length b.now) × (length (value 2 (run_in a.now)) ≡ 4) × (length (value 2 (run_in b.now)) ≡ 4) }
    ensures { ordering result ≡ compare_bytes (partition_part (value 2 (run_in a.now))) (partition_part (value 2 (run_in b.now))) }
{
    let x = partition_place(a);
    let y = partition_place(b);
    if x < y {
        return Ordering::Less;
    }
    if y < x {
        return Ordering::Greater;
    }
    Ordering::Equal
}

// The order of two records' fields of one tag, and of another where those are the same.
fn compare_both(a: &[u8], b: &[u8], tag: usize, other: usize) -> Ordering
    requires { (3 ≤ length a.now) × (3 ≤ length b.now) }
    ensures { ordering result ≡ then_by (compare_bytes (value tag (run_in a.now)) (value tag (run_in b.now))) (compare_bytes (value other (run_in a.now)) (value other (run_in b.now))) }
{
    match compare_field(a, b, tag) {
        Ordering::Less => Ordering::Less,
        Ordering::Equal => compare_field(a, b, other),
        Ordering::Greater => Ordering::Greater,
    }
}

// What tells the entries of a kind's group apart: 0 nothing, 1 the field of tag 1, 2 tags 1 and 2, 3 tags 2 and 1, 4 tag 1 and the partition's
// number, 5 the entities and tag 2.
fn form_of(kind: u8) -> u8
    ensures { result ≡ form_of kind }
{
    match kind {
        kinds::TOPIC => 1,
        kinds::PARTITION => 4,
        kinds::BROKER_REGISTRATION => 1,
        kinds::DELETE_TOPIC => 0,
        kinds::TOPIC_CONFIG => 1,
        kinds::BROKER_CONFIG => 2,
        kinds::CLIENT_QUOTA => 5,
        kinds::PRODUCER_IDS => 0,
        kinds::UNREGISTER_BROKER => 0,
        kinds::KRAFT_VERSION => 0,
        kinds::FEATURE_LEVEL => 1,
        kinds::CLIENT_METRICS_CONFIG => 1,
        kinds::FEATURES_EPOCH => 0,
        kinds::PARTITION_DIR_ASSIGNMENT => 0,
        kinds::PARTITION_OFFSET_ADVANCE => 4,
        kinds::GROUP_CONFIG => 1,
        kinds::CONTROLLER_REGISTRATION => 1,
        kinds::TOPIC_FREEZE => 3,
        kinds::BREAK_GLASS_PROPOSAL => 1,
        kinds::DELETE_BREAK_GLASS_PROPOSAL => 0,
        kinds::PARTITION_ELR => 4,
        kinds::PARTITION_RECOVERY => 4,
        kinds::PARTITION_UPDATE => 0,
        kinds::BROKER_REGISTRATION_CHANGE => 0,
        kinds::UNREGISTER_CONTROLLER => 0,
        0 | 26..=255 => 0,
    }
}

// The order of two records' topics and partition numbers.
fn compare_placed(a: &[u8], b: &[u8]) -> Ordering
    requires { (3 ≤ length a.now) × (3 ≤ length b.now) × (length (value 2 (run_in a.now)) ≡ 4) × (length (value 2 (run_in b.now)) ≡ 4) }
    ensures { ordering result ≡ by_form 4 (run_in a.now) (run_in b.now) }
{
    match compare_field(a, b, 1) {
        Ordering::Less => Ordering::Less,
        Ordering::Equal => compare_partitions(a, b),
        Ordering::Greater => Ordering::Greater,
    }
}

// The order of two quotas: entities, then the config key.
fn compare_quotas(a: &[u8], b: &[u8]) -> Ordering
    requires { Quotas a.now b.now }
    ensures { ordering result ≡ by_form 5 (run_in a.now) (run_in b.now) }
{
    match compare_entities(a, b) {
        Ordering::Less => Ordering::Less,
        Ordering::Equal => compare_field(a, b, 2),
        Ordering::Greater => Ordering::Greater,
    }
}

// The order of two records of one group, by what tells its entries apart.
fn compare_by(form: u8, a: &[u8], b: &[u8]) -> Ordering
    requires { (3 ≤ length a.now) × (3 ≤ length b.now) × FormFits form (run_in a.now) × FormFits form (run_in b.now) }
    ensures { ordering result ≡ by_form form (run_in a.now) (run_in b.now) }
{
    match form {
        1 => compare_field(a, b, 1),
        2 => compare_both(a, b, 1, 2),
        3 => compare_both(a, b, 2, 1),
        4 => compare_placed(a, b),
        5 => compare_quotas(a, b),
        _ => Ordering::Equal,
    }
}

// The order of two records' keys.
pub fn compare_keys(a: &[u8], b: &[u8]) -> Ordering
    requires { Keyed a.now × Keyed b.now }
    ensures { ordering result ≡ compare_keys (key_in a.now) (key_in b.now) }
{
    let x = rank_of(a[0]);
    let y = rank_of(b[0]);
    if x < y {
        return Ordering::Less;
    }
    if y < x {
        return Ordering::Greater;
    }
    compare_by(form_of(a[0]), a, b)
}
