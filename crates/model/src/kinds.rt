// The kinds' numbers, the first byte of a record.
pub const TOPIC: u8 = 1;

pub const PARTITION: u8 = 2;

pub const BROKER_REGISTRATION: u8 = 3;

pub const DELETE_TOPIC: u8 = 4;

pub const TOPIC_CONFIG: u8 = 5;

pub const BROKER_CONFIG: u8 = 6;

pub const CLIENT_QUOTA: u8 = 7;

pub const PRODUCER_IDS: u8 = 8;

pub const UNREGISTER_BROKER: u8 = 9;

pub const KRAFT_VERSION: u8 = 10;

pub const FEATURE_LEVEL: u8 = 11;

pub const CLIENT_METRICS_CONFIG: u8 = 12;

pub const FEATURES_EPOCH: u8 = 13;

pub const PARTITION_DIR_ASSIGNMENT: u8 = 14;

pub const PARTITION_OFFSET_ADVANCE: u8 = 15;

pub const GROUP_CONFIG: u8 = 16;

pub const CONTROLLER_REGISTRATION: u8 = 17;

pub const TOPIC_FREEZE: u8 = 18;

pub const BREAK_GLASS_PROPOSAL: u8 = 19;

pub const DELETE_BREAK_GLASS_PROPOSAL: u8 = 20;

pub const PARTITION_ELR: u8 = 21;

pub const PARTITION_RECOVERY: u8 = 22;

pub const PARTITION_UPDATE: u8 = 23;

pub const BROKER_REGISTRATION_CHANGE: u8 = 24;

pub const UNREGISTER_CONTROLLER: u8 = 25;

pub const LOG_OFFSET: u8 = 26;
