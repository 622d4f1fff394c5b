// The kind of a number.
ghost use Rattle.std.specs.Prelude.{◌≡◌};
ghost use Rattle.model.specs.Kind.{kind_of};
ghost use Rattle.packing.specs.Numbered.{named};

use model::{Kind, kinds};

// A kind, or none.
#[derive(Clone, Copy)]
pub enum Numbered {
    Kind(Kind),
    Unknown,
}

pub fn kind_of(number: u8) -> Numbered
    ensures { named result ≡ kind_of number }
{
    match number {
        kinds::TOPIC => Numbered::Kind(Kind::Topic),
        kinds::PARTITION => Numbered::Kind(Kind::Partition),
        kinds::BROKER_REGISTRATION => Numbered::Kind(Kind::BrokerRegistration),
        kinds::DELETE_TOPIC => Numbered::Kind(Kind::DeleteTopic),
        kinds::TOPIC_CONFIG => Numbered::Kind(Kind::TopicConfig),
        kinds::BROKER_CONFIG => Numbered::Kind(Kind::BrokerConfig),
        kinds::CLIENT_QUOTA => Numbered::Kind(Kind::ClientQuota),
        kinds::PRODUCER_IDS => Numbered::Kind(Kind::ProducerIds),
        kinds::UNREGISTER_BROKER => Numbered::Kind(Kind::UnregisterBroker),
        kinds::KRAFT_VERSION => Numbered::Kind(Kind::KRaftVersion),
        kinds::FEATURE_LEVEL => Numbered::Kind(Kind::FeatureLevel),
        kinds::CLIENT_METRICS_CONFIG => Numbered::Kind(Kind::ClientMetricsConfig),
        kinds::FEATURES_EPOCH => Numbered::Kind(Kind::FeaturesEpoch),
        kinds::PARTITION_DIR_ASSIGNMENT => Numbered::Kind(Kind::PartitionDirAssignment),
        kinds::PARTITION_OFFSET_ADVANCE => Numbered::Kind(Kind::PartitionOffsetAdvance),
        kinds::GROUP_CONFIG => Numbered::Kind(Kind::GroupConfig),
        kinds::CONTROLLER_REGISTRATION => Numbered::Kind(Kind::ControllerRegistration),
        kinds::TOPIC_FREEZE => Numbered::Kind(Kind::TopicFreeze),
        kinds::BREAK_GLASS_PROPOSAL => Numbered::Kind(Kind::BreakGlassProposal),
        kinds::DELETE_BREAK_GLASS_PROPOSAL => Numbered::Kind(Kind::DeleteBreakGlassProposal),
        kinds::PARTITION_ELR => Numbered::Kind(Kind::PartitionElr),
        kinds::PARTITION_RECOVERY => Numbered::Kind(Kind::PartitionRecovery),
        kinds::PARTITION_UPDATE => Numbered::Kind(Kind::PartitionUpdate),
        kinds::BROKER_REGISTRATION_CHANGE => Numbered::Kind(Kind::BrokerRegistrationChange),
        kinds::UNREGISTER_CONTROLLER => Numbered::Kind(Kind::UnregisterController),
        kinds::LOG_OFFSET => Numbered::Kind(Kind::LogOffset),
        0 | 27..=255 => Numbered::Unknown,
    }
}
