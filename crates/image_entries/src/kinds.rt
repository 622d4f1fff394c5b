// What is asked of an entry, by its kind.
ghost use Rattle.std.specs.Prelude.{◌≡◌, ◌&&◌, not, ltb};
ghost use Rattle.model.specs.Number.{is_negative};
ghost use Rattle.model.specs.Contents.{is_bare, is_group};
ghost use Rattle.model.specs.Image.{flag_reads};
ghost use Rattle.entries.specs.Entries.{IsRecord, record_in};
ghost use Rattle.image_entries.specs.Stored.{storable_record, is_stored};

use crate::entities::{entities_in_order, has_value_in_order};
use crate::values::{has, is_empty, value_number};
use model::kinds;

// Whether an entry is a broker config or a quota, and has no value.
pub fn is_bare(e: &[u8]) -> bool
    requires { IsRecord e.now }
    ensures { result ≡ is_bare (record_in e.now) }
{
    match e[0] {
        kinds::BROKER_CONFIG | kinds::CLIENT_QUOTA => !has(e, 3),
        _ => false,
    }
}

// Whether an entry is an empty group: no value, an empty name, and a quota's entities in order.
pub fn is_group(e: &[u8]) -> bool
    requires { IsRecord e.now }
    ensures { result ≡ is_group (record_in e.now) }
{
    if !is_bare(e) {
        return false;
    }
    if !is_empty(e, 2) {
        return false;
    }
    if e[0] == kinds::BROKER_CONFIG {
        return true;
    }
    entities_in_order(e)
}

// Whether a topic's fifth field is a flag: four zeros, then 0 or 1.
fn flag_reads(e: &[u8]) -> bool
    requires { IsRecord e.now }
    ensures { result ≡ flag_reads (record_in e.now) }
{
    if e[0] != kinds::TOPIC {
        return true;
    }
    value_number(e, 5, 5) <= 1
}

// Whether a signed number is above 0.
fn is_positive(n: u64) -> bool
    ensures { result ≡ (ltb 0 n && not (is_negative 8 n)) }
{
    if n == 0 {
        return false;
    }
    n < 0x8000_0000_0000_0000
}

// Whether Apply stores such a record: no level 0, Recovered, thawed freeze, two empty ELR lists or empty topic, metrics or group configs;
// quota entities in order; a next producer id above 0.
pub fn is_storable(e: &[u8]) -> bool
    requires { IsRecord e.now }
    ensures { result ≡ storable_record (record_in e.now) }
{
    match e[0] {
        kinds::TOPIC => true,
        kinds::PARTITION => true,
        kinds::BROKER_REGISTRATION => true,
        kinds::DELETE_TOPIC => false,
        kinds::TOPIC_CONFIG => has(e, 2),
        kinds::BROKER_CONFIG => has(e, 3),
        kinds::CLIENT_QUOTA => has_value_in_order(e),
        kinds::PRODUCER_IDS => is_positive(value_number(e, 3, 8)),
        kinds::UNREGISTER_BROKER => false,
        kinds::KRAFT_VERSION => false,
        kinds::FEATURE_LEVEL => value_number(e, 2, 2) != 0,
        kinds::CLIENT_METRICS_CONFIG => has(e, 2),
        kinds::FEATURES_EPOCH => false,
        kinds::PARTITION_DIR_ASSIGNMENT => false,
        kinds::PARTITION_OFFSET_ADVANCE => true,
        kinds::GROUP_CONFIG => has(e, 2),
        kinds::CONTROLLER_REGISTRATION => true,
        kinds::TOPIC_FREEZE => value_number(e, 3, 1) == 1,
        kinds::BREAK_GLASS_PROPOSAL => true,
        kinds::DELETE_BREAK_GLASS_PROPOSAL => false,
        kinds::PARTITION_ELR => !is_empty(e, 3) || !is_empty(e, 4),
        kinds::PARTITION_RECOVERY => value_number(e, 3, 1) != 0,
        kinds::PARTITION_UPDATE => false,
        kinds::BROKER_REGISTRATION_CHANGE => false,
        kinds::UNREGISTER_CONTROLLER => false,
        0 | 26..=255 => false,
    }
}

// Whether an entry may stand among the real ones: its flag reads, and Apply stores such a record.
pub fn is_stored(e: &[u8]) -> bool
    requires { IsRecord e.now }
    ensures { result ≡ is_stored (record_in e.now) }
{
    flag_reads(e) && is_storable(e)
}
