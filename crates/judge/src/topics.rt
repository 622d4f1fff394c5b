// Records of topics and of partitions, against the stored ones.
ghost use Rattle.std.specs.Prelude.{◌≡◌, ◌≤◌, ◌<◌, length};
ghost use Rattle.model.specs.Choice.{or_then, unless as unless_of};
ghost use Rattle.model.specs.Number.{half};
ghost use Rattle.model.specs.Run.{run_of, value};
ghost use Rattle.model.specs.Key.{topic_key, partition_key};
ghost use Rattle.model.specs.Map.{get};
ghost use Rattle.model.specs.Contents.{key, partitions};
ghost use Rattle.model.specs.Validate.{lawful_name, topic_exists, unknown_topic};
ghost use Rattle.model.specs.declared.Kind.TheVariants.{Partition};
ghost use Rattle.keys.specs.Keys.{run_in};
ghost use Rattle.entries.specs.Entries.{Entries};
ghost use Rattle.entries.specs.Held.{entries_in};
ghost use Rattle.find.specs.Logged.{TopicFields};
ghost use Rattle.judge.specs.Judge.{may_replace};

use crate::lookups::{find_named, is_stored};
use crate::names::is_lawful;
use crate::partitions::partitions_of;
use crate::values::{or_then, unless};
use fields::{Cursor, Found};
use keys::{number_at, place_in, same_value, value_at};
use model::kinds::{PARTITION, TOPIC};
use model::refusals::{TOPIC_EXISTS, UNKNOWN_TOPIC, UNLAWFUL_NAME};
use reader::field;

// Zero's place among signed numbers of four bytes.
const ZERO: u64 = 0x8000_0000;

// Refuses where no topic of a name is stored.
fn unknown_name(s: &[u8], name: &[u8]) -> u8
    requires { Entries s.now × (length name.now ≤ 255) }
    ensures { result ≡ unknown_topic (get key (topic_key name.now) (entries_in s.now)) }
{
    unless(is_stored(s, TOPIC, name, b""), UNKNOWN_TOPIC)
}

// The same of the topic that a record's first field names.
pub fn unknown_topic(s: &[u8], rec: &[u8]) -> u8
    requires { Entries s.now × (3 ≤ length rec.now) × (length (value 1 (run_in rec.now)) ≤ 255) }
    ensures { result ≡ unknown_topic (get key (topic_key (value 1 (run_in rec.now))) (entries_in s.now)) }
{
    let p = value_at(rec, 1);
    let start = p.start;
    let end = p.end;
    unknown_name(s, &rec[start..end])
}

// The same of the topic of a partition that a record's first field is.
pub fn unknown_nested(s: &[u8], rec: &[u8]) -> u8
    requires { Entries s.now × (3 ≤ length rec.now) × (length (value 1 (run_of (value 1 (run_in rec.now)))) ≤ 255) }
    ensures { result ≡ unknown_topic (get key (topic_key (value 1 (run_of (value 1 (run_in rec.now))))) (entries_in s.now)) }
{
    let p = value_at(rec, 1);
    let partition = Cursor {
        at: p.start,
        to: p.end,
    };
    match field(rec, partition, 1) {
        Found::Part { start, len } => {
            let end = start + len;
            unknown_name(s, &rec[start..end])
        }
        Found::Missing => unknown_name(s, b""),
    }
}

// Refuses where no partition is stored of the topic and number that a record's first two fields name.
pub fn unknown_partition(s: &[u8], rec: &[u8]) -> u8
    requires { Entries s.now × (3 ≤ length rec.now) × (length (value 1 (run_in rec.now)) ≤ 255) × (length (value 2 (run_in rec.now)) ≡ 4) }
    ensures { result ≡ unknown_topic (get key (partition_key Partition (value 1 (run_in rec.now)) (value 2 (run_in rec.now))) (entries_in s.now)) }
{
    let p = value_at(rec, 1);
    let q = value_at(rec, 2);
    let ps = p.start;
    let pe = p.end;
    let qs = q.start;
    let qe = q.end;
    unless(
        is_stored(s, PARTITION, &rec[ps..pe], &rec[qs..qe]),
        UNKNOWN_TOPIC,
    )
}

// Whether a topic's record may replace the stored one: the same id and replication factor, and a count above the partitions' number.
fn may_replace(rec: &[u8], e: &[u8], parts: u64) -> bool
    requires { TopicFields rec.now × TopicFields e.now × (parts < half 8) }
    ensures { result ≡ may_replace (run_in rec.now) (run_in e.now) parts }
{
    if !same_value(rec, e, 2) {
        return false;
    }
    if number_at(rec, 4, 2) != number_at(e, 4, 2) {
        return false;
    }
    parts + ZERO < place_in(rec, 3, 4)
}

// Refuses a topic's record where another topic of its name is stored, or one with as many partitions.
fn topic_exists(s: &[u8], rec: &[u8]) -> u8
    requires { Entries s.now × TopicFields rec.now }
    ensures { result ≡ topic_exists (run_in rec.now) (partitions (value 1 (run_in rec.now)) (entries_in s.now)) (get key (topic_key (value 1 (run_in rec.now))) (entries_in s.now)) }
{
    let p = find_named(s, TOPIC, rec);
    let at = p.at;
    let end = p.end;
    if end <= at {
        return 0;
    }
    let parts = partitions_of(s, rec);
    unless(may_replace(rec, &s[at..end], parts), TOPIC_EXISTS)
}

// Refuses a topic's record whose name is unlawful; then as `topic_exists`.
pub fn topic_fault(s: &[u8], rec: &[u8]) -> u8
    requires { Entries s.now × TopicFields rec.now }
    ensures { result ≡ or_then (unless_of (lawful_name (value 1 (run_in rec.now))) 24) (topic_exists (run_in rec.now) (partitions (value 1 (run_in rec.now)) (entries_in s.now)) (get key (topic_key (value 1 (run_in rec.now))) (entries_in s.now))) }
{
    let p = value_at(rec, 1);
    let start = p.start;
    let end = p.end;
    let unlawful = unless(is_lawful(&rec[start..end]), UNLAWFUL_NAME);
    let exists = topic_exists(s, rec);
    or_then(unlawful, exists)
}
