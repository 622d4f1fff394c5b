// What is refused, by 01's and 02's numbers.

// No image, or for Open no capacity.
pub const NO_IMAGE: u8 = 1;

// Read: a header or a body runs past the input; an unknown kind.
pub const PAST_THE_END: u8 = 2;

pub const UNKNOWN_KIND: u8 = 3;

// Read and Write: a wrong tag, length or value, or one missing; then one over a limit.
pub const WRONG: u8 = 4;

pub const OVER_A_LIMIT: u8 = 5;

// Validate: a stored name with another id or replication factor, or a count not above the stored partitions' number.
pub const TOPIC_EXISTS: u8 = 6;

// No topic, or no partition, stored for a record.
pub const UNKNOWN_TOPIC: u8 = 7;

// A broker's change, and its unregistration, at another epoch or of an unknown broker.
pub const STALE_CHANGE: u8 = 8;

pub const STALE_UNREGISTRATION: u8 = 9;

pub const UNKNOWN_CONTROLLER: u8 = 10;

// Producer ids whose next is not above the stored one, then those at another epoch or of an unknown broker.
pub const NOT_ABOVE: u8 = 11;

pub const STALE_PRODUCER: u8 = 12;

// A freeze with an empty scope.
pub const EMPTY_SCOPE: u8 = 13;

// A stored proposal that is consumed, then one that is withdrawn, then one whose approvals the new ones do not begin with.
pub const CONSUMED: u8 = 14;

pub const WITHDRAWN: u8 = 15;

pub const NO_EXTENSION: u8 = 16;

// Apply: an offset's sum leaves i64; the weight exceeds the capacity.
pub const OVERFLOW: u8 = 17;

pub const FULL: u8 = 18;

// The output is too short.
pub const TOO_SHORT: u8 = 19;

// Read and Write: a node listed twice in the replicas, directly after 4 and 5 of that field.
pub const REPEATED: u8 = 20;

// Apply: a log offset not above the stored one, directly after Read's.
pub const NOT_LATER: u8 = 21;

// Restore, and a snapshot of the new form: the log offset is missing at the start or stands later, directly after that record's Read's. The freeze
// from a run: it stands later.
pub const MISPLACED_OFFSET: u8 = 22;

// A snapshot of the old form: the offset that it is given is below -1.
pub const OFFSET_TOO_LOW: u8 = 23;

// Validate: a topic's name that is unlawful, after Read's and before 6.
pub const UNLAWFUL_NAME: u8 = 24;

// A viewer's query: the name begins with none of the viewer's prefixes, whether or not it exists.
pub const NOT_VISIBLE: u8 = 25;

// A short history: its number is past the last.
pub const PAST_THE_LAST: u8 = 26;

// Kafka's record bytes: a number that Kafka's field cannot hold, after Read's and 3.
pub const NOT_KAFKAS: u8 = 27;
