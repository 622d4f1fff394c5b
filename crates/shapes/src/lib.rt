// The table of shapes, one field to a line, and its rows by kind and tag. It is the packed form of the rows in `model`, by computation.
#![tactic(auto)]

ghost use Rattle.std.specs.Prelude.{◌≡◌, ◌<◌, get_or};
ghost use Rattle.model.specs.Shape.{logged, stored, framed};
ghost use Rattle.shapes.specs.Table.{table, row_count, kind_base, form_in, size_in, prior_in, many_in};

use model::kinds;

// How many rows there are, and the base of a kind that there is none of.
pub const ROW_COUNT: usize = 151;

// The base of the topic as an image stores it.
const STORED_TOPIC: usize = 123;

// The base of the log offset that a snapshot starts with.
const LOG_OFFSET: usize = 149;

// Hexadecimal: form, size, the greatest required tag before, how often.
// Form: 0 a fixed width, 1 a byte below the size, 2 a string, 3 a map's key, 4 bytes, 5 node ids, 6 ids, 7 node ids without a repeat, 8 a log offset, 9 a
// run of the shape whose base the size is. How often: 0 once, 1 at most once, else up to so many times.
// Before a shape's rows stands one with the number of its fields and its greatest required tag.
const ROWS: [u32; 151] = [
    // 1 Topic
    0x0_004_04_00, // 4 fields
    0x2_0ff_00_00, // name
    0x0_010_01_00, // topic_id
    0x0_004_02_00, // partitions
    0x0_002_03_00, // replication_factor
    // 2 Partition
    0x0_00a_0a_00, // 10 fields
    0x2_0ff_00_00, // topic
    0x0_004_01_00, // partition
    0x0_008_02_00, // leader
    0x7_040_03_00, // replicas
    0x5_040_04_00, // isr
    0x0_004_05_00, // leader_epoch
    0x5_040_06_00, // adding_replicas
    0x5_040_07_00, // removing_replicas
    0x6_040_08_00, // directories
    0x0_004_09_00, // partition_epoch
    // 3 BrokerRegistration
    0x0_00c_0a_00, // 12 fields
    0x0_008_00_00, // node_id
    0x0_008_01_00, // broker_epoch
    0x0_010_02_00, // incarnation_id
    0x2_0ff_03_00, // host
    0x0_002_04_00, // port
    0x2_0ff_05_01, // rack
    0x9_081_05_10, // endpoints
    0x6_040_05_00, // log_dirs
    0x1_002_08_00, // fenced
    0x1_002_09_00, // in_controlled_shutdown
    0x6_040_0a_01, // cordoned_log_dirs
    0x9_091_0a_40, // features
    // 4 DeleteTopic
    0x0_001_01_00, // 1 fields
    0x2_0ff_00_00, // name
    // 5 TopicConfig
    0x0_002_01_00, // 2 fields
    0x2_0ff_00_00, // topic
    0x9_08e_01_40, // overrides
    // 6 BrokerConfig
    0x0_003_02_00, // 3 fields
    0x0_008_00_00, // node_id
    0x2_0ff_01_00, // config_name
    0x2_0ff_02_01, // config_value
    // 7 ClientQuota
    0x0_003_02_00, // 3 fields
    0x9_08b_00_08, // entity
    0x2_0ff_00_00, // config_key
    0x0_008_02_01, // config_value
    // 8 ProducerIds
    0x0_003_03_00, // 3 fields
    0x0_008_00_00, // broker_id
    0x0_008_01_00, // broker_epoch
    0x0_008_02_00, // next_producer_id
    // 9 UnregisterBroker
    0x0_002_02_00, // 2 fields
    0x0_008_00_00, // node_id
    0x0_008_01_00, // broker_epoch
    // 10 KRaftVersion
    0x0_001_01_00, // 1 fields
    0x0_002_00_00, // kraft_version
    // 11 FeatureLevel
    0x0_002_02_00, // 2 fields
    0x2_0ff_00_00, // name
    0x0_002_01_00, // level
    // 12 ClientMetricsConfig
    0x0_002_01_00, // 2 fields
    0x2_0ff_00_00, // name
    0x9_08e_01_40, // configs
    // 13 FeaturesEpoch
    0x0_001_01_00, // 1 fields
    0x0_008_00_00, // epoch
    // 14 PartitionDirAssignment
    0x0_004_04_00, // 4 fields
    0x2_0ff_00_00, // topic
    0x0_004_01_00, // partition
    0x0_008_02_00, // replica
    0x0_010_03_00, // directory
    // 15 PartitionOffsetAdvance
    0x0_003_03_00, // 3 fields
    0x2_0ff_00_00, // topic
    0x0_004_01_00, // partition
    0x0_008_02_00, // count
    // 16 GroupConfig
    0x0_002_01_00, // 2 fields
    0x2_0ff_00_00, // group_id
    0x9_08e_01_40, // configs
    // 17 ControllerRegistration
    0x0_005_03_00, // 5 fields
    0x0_008_00_00, // node_id
    0x0_010_01_00, // incarnation_id
    0x1_002_02_00, // zk_migration_ready
    0x9_081_03_10, // endpoints
    0x9_091_03_40, // features
    // 18 TopicFreeze
    0x0_009_09_00, // 9 fields
    0x2_0ff_00_00, // scope
    0x1_002_01_00, // pattern_type
    0x1_002_02_00, // frozen
    0x2_0ff_03_00, // reason
    0x2_0ff_04_00, // set_by
    0x0_008_05_00, // set_at_ms
    0x0_010_06_00, // proposal_id
    0x2_0ff_07_00, // key_id
    0x4_200_08_00, // signature
    // 19 BreakGlassProposal
    0x0_00a_0a_00, // 10 fields
    0x0_010_00_00, // proposal_id
    0x1_007_01_00, // action
    0x2_0ff_02_00, // target
    0x2_0ff_03_00, // proposer
    0x2_0ff_04_00, // reason
    0x0_008_05_00, // created_at_ms
    0x0_008_06_00, // expires_at_ms
    0x9_086_07_10, // approvals
    0x0_008_07_00, // consumed_at_ms
    0x1_002_09_00, // withdrawn
    // 20 DeleteBreakGlassProposal
    0x0_001_01_00, // 1 fields
    0x0_010_00_00, // proposal_id
    // 21 PartitionElr
    0x0_004_04_00, // 4 fields
    0x2_0ff_00_00, // topic
    0x0_004_01_00, // partition
    0x5_040_02_00, // eligible_leader_replicas
    0x5_040_03_00, // last_known_elr
    // 22 PartitionRecovery
    0x0_003_03_00, // 3 fields
    0x2_0ff_00_00, // topic
    0x0_004_01_00, // partition
    0x1_002_02_00, // state
    // 23 PartitionUpdate
    0x0_004_01_00, // 4 fields
    0x9_005_00_00, // partition
    0x5_040_01_01, // eligible_leader_replicas
    0x5_040_01_01, // last_known_elr
    0x1_002_01_01, // recovery_state
    // 24 BrokerRegistrationChange
    0x0_006_05_00, // 6 fields
    0x0_008_00_00, // node_id
    0x0_008_01_00, // broker_epoch
    0x1_003_02_00, // fenced
    0x1_002_03_00, // in_controlled_shutdown
    0x6_040_04_00, // log_dirs
    0x6_040_05_01, // cordoned_log_dirs
    // 25 UnregisterController
    0x0_001_01_00, // 1 fields
    0x0_008_00_00, // node_id
    // the topic as an image stores it
    0x0_005_05_00, // 5 fields
    0x2_0ff_00_00, // name
    0x0_010_01_00, // topic_id
    0x0_004_02_00, // partitions
    0x0_002_03_00, // replication_factor
    0x0_005_04_00, // named
    // Endpoint
    0x0_004_04_00, // 4 fields
    0x2_0ff_00_00, // name
    0x2_0ff_01_00, // host
    0x0_002_02_00, // port
    0x1_004_03_00, // protocol
    // Approval
    0x0_004_04_00, // 4 fields
    0x2_0ff_00_00, // principal
    0x0_008_01_00, // approved_at_ms
    0x2_0ff_02_00, // key_id
    0x4_200_03_00, // signature
    // Entity
    0x0_002_01_00, // 2 fields
    0x2_0ff_00_00, // entity_type
    0x2_0ff_01_01, // entity_name
    // Pair
    0x0_002_02_00, // 2 fields
    0x3_0ff_00_00, // key
    0x2_0ff_01_00, // value
    // Feature
    0x0_003_03_00, // 3 fields
    0x3_0ff_00_00, // name
    0x0_002_01_00, // low
    0x0_002_02_00, // high
    // 26 LogOffset
    0x0_001_01_00, // 1 fields
    0x8_008_00_00, // offset
];

// Where the rows of a record in the log begin: the kind number decides. Other numbers are no kinds there, 26 among them.
pub fn base_of(kind: u8) -> usize
    ensures { result ≡ kind_base logged kind }
{
    match kind {
        kinds::TOPIC => 0,
        kinds::PARTITION => 5,
        kinds::BROKER_REGISTRATION => 16,
        kinds::DELETE_TOPIC => 29,
        kinds::TOPIC_CONFIG => 31,
        kinds::BROKER_CONFIG => 34,
        kinds::CLIENT_QUOTA => 38,
        kinds::PRODUCER_IDS => 42,
        kinds::UNREGISTER_BROKER => 46,
        kinds::KRAFT_VERSION => 49,
        kinds::FEATURE_LEVEL => 51,
        kinds::CLIENT_METRICS_CONFIG => 54,
        kinds::FEATURES_EPOCH => 57,
        kinds::PARTITION_DIR_ASSIGNMENT => 59,
        kinds::PARTITION_OFFSET_ADVANCE => 64,
        kinds::GROUP_CONFIG => 68,
        kinds::CONTROLLER_REGISTRATION => 71,
        kinds::TOPIC_FREEZE => 77,
        kinds::BREAK_GLASS_PROPOSAL => 87,
        kinds::DELETE_BREAK_GLASS_PROPOSAL => 98,
        kinds::PARTITION_ELR => 100,
        kinds::PARTITION_RECOVERY => 105,
        kinds::PARTITION_UPDATE => 109,
        kinds::BROKER_REGISTRATION_CHANGE => 114,
        kinds::UNREGISTER_CONTROLLER => 121,
        0 | 26..=255 => ROW_COUNT,
    }
}

// The same of a record that an image stores.
pub fn stored_base_of(kind: u8) -> usize
    ensures { result ≡ kind_base stored kind }
{
    if kind == kinds::TOPIC {
        return STORED_TOPIC;
    }
    base_of(kind)
}

// The same of a record by itself and in a snapshot, which may be the log offset.
pub fn framed_base_of(kind: u8) -> usize
    ensures { result ≡ kind_base framed kind }
{
    if kind == kinds::LOG_OFFSET {
        return LOG_OFFSET;
    }
    base_of(kind)
}

// The table. Indexing the constant itself would set it up at each row.
pub fn all_rows() -> [u32; 151]
    ensures { result ≡ table }
{
    ROWS
}

// A row.
pub fn row_at(rows: &[u32], i: usize) -> u32
    requires { (rows.now ≡ table) × (i < row_count) }
    ensures { result ≡ get_or table i 0 }
{
    rows[i]
}

// A row's parts.
pub fn form_in(row: u32) -> u32
    ensures { result ≡ form_in row }
{
    row / 0x1000_0000
}

pub fn size_in(row: u32) -> usize
    ensures { result ≡ size_in row }
{
    (row / 65536 % 4096) as usize
}

pub fn prior_in(row: u32) -> usize
    ensures { result ≡ prior_in row }
{
    (row / 256 % 256) as usize
}

pub fn many_in(row: u32) -> usize
    ensures { result ≡ many_in row }
{
    (row % 256) as usize
}
