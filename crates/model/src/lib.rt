// The plain types and numbers that the operations share. What they mean stands in `specs/`.
#![tactic(auto)]

pub mod answers;
pub mod kinds;
pub mod refusals;

// The kinds of record: 25 that move an image, by the Rust's names, and the log offset that a snapshot starts with.
#[derive(Clone, Copy)]
pub enum Kind {
    Topic,
    Partition,
    BrokerRegistration,
    DeleteTopic,
    TopicConfig,
    BrokerConfig,
    ClientQuota,
    ProducerIds,
    UnregisterBroker,
    KRaftVersion,
    FeatureLevel,
    ClientMetricsConfig,
    FeaturesEpoch,
    PartitionDirAssignment,
    PartitionOffsetAdvance,
    GroupConfig,
    ControllerRegistration,
    TopicFreeze,
    BreakGlassProposal,
    DeleteBreakGlassProposal,
    PartitionElr,
    PartitionRecovery,
    PartitionUpdate,
    BrokerRegistrationChange,
    UnregisterController,
    LogOffset,
}

// A broker's or controller's number. Never taken for a leader epoch.
#[derive(Clone, Copy)]
pub struct NodeId(pub u64);

// A partition's leader epoch. Never taken for a node.
#[derive(Clone, Copy)]
pub struct LeaderEpoch(pub i32);
