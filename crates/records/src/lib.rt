// Records: Read and Write.
#![tactic(auto)]

ghost use Rattle.std.specs.Prelude.{◌≡◌, true, ◌++◌, ◌+◌, ◌<◌, ◌≤◌, length};
ghost use Rattle.model.specs.Kind.{kind_number};
ghost use Rattle.model.specs.Run.{bytes_of};
ghost use Rattle.model.specs.Shape.{logged, framed, fault};
ghost use Rattle.model.specs.Record.{read as read_as, read_of, begins_apart, gathered, write_of};
ghost use Rattle.laws_records.specs.Runs.{Whole};
ghost use Rattle.shapes.specs.Table.{table, kind_base};
ghost use Rattle.model.specs.Answers.{replied};
ghost use Rattle.records.specs.Answers.{got_reply, source_of, body_length, put_at, head, number_bytes};

use fields::Cursor;
use flat_faults::record_faults;
use model::answers::Answer;
use model::refusals::{PAST_THE_END, TOO_SHORT, UNKNOWN_KIND};
use model::{Kind, kinds};
use shape_faults::given_faults;
pub use shape_faults::text_fault;
use shapes::{all_rows, base_of, framed_base_of, stored_base_of};
use wire::get16;

// Where a record stands: in the log, as Validate and Apply are given it; in an image, whose topics have one field more; or by itself and in a
// snapshot, which may start with the log offset.
#[derive(Clone, Copy)]
pub enum Source {
    Logged,
    Stored,
    Framed,
}

// Where a record's rows begin in the table.
fn base_from(kind: u8, source: Source) -> usize
    ensures { result ≡ kind_base (source_of source) kind }
{
    match source {
        Source::Logged => base_of(kind),
        Source::Stored => stored_base_of(kind),
        Source::Framed => framed_base_of(kind),
    }
}

// Reads the record at the start of `s`, by where it stands and by the table that is lent. Later bytes are not looked at.
pub fn read_from(rows: &[u32], s: &[u8], source: Source) -> Answer
    requires { rows.now ≡ table }
    ensures { replied result ≡ got_reply (read_as (source_of source) s.now) }
{
    if s.len() < 3 {
        return Answer::Refused(PAST_THE_END);
    }
    let len = get16(s, 1);
    if s.len() - 3 < len {
        return Answer::Refused(PAST_THE_END);
    }
    let base = base_from(s[0], source);
    if base == shapes::ROW_COUNT {
        return Answer::Refused(UNKNOWN_KIND);
    }
    let end = 3 + len;
    let f = record_faults(rows, s, base, Cursor { at: 3, to: end });
    if f != 0 {
        return Answer::Refused(f);
    }
    Answer::Used(end)
}

// Reads the record at the start of `s`: the bytes used. Later bytes are not looked at. What it accepts lists no node twice in its replicas.
pub fn read(s: &[u8]) -> Answer
    ensures result_value { replied result ≡ read_of s.now }
    ensures s_value { (replied result).number ≡ 0 → begins_apart s.now ≡ true }
{
    let rows = all_rows();
    read_from(&rows, s, Source::Framed)
}

// The same of a record in the log, as Validate and Apply are given it: the log offset is no kind there.
pub fn read_logged(s: &[u8]) -> Answer
    ensures { replied result ≡ got_reply (read_as logged s.now) }
{
    let rows = all_rows();
    read_from(&rows, s, Source::Logged)
}

// A kind's number.
pub fn kind_number(kind: Kind) -> u8
    ensures { result ≡ kind_number kind }
{
    match kind {
        Kind::Topic => kinds::TOPIC,
        Kind::Partition => kinds::PARTITION,
        Kind::BrokerRegistration => kinds::BROKER_REGISTRATION,
        Kind::DeleteTopic => kinds::DELETE_TOPIC,
        Kind::TopicConfig => kinds::TOPIC_CONFIG,
        Kind::BrokerConfig => kinds::BROKER_CONFIG,
        Kind::ClientQuota => kinds::CLIENT_QUOTA,
        Kind::ProducerIds => kinds::PRODUCER_IDS,
        Kind::UnregisterBroker => kinds::UNREGISTER_BROKER,
        Kind::KRaftVersion => kinds::KRAFT_VERSION,
        Kind::FeatureLevel => kinds::FEATURE_LEVEL,
        Kind::ClientMetricsConfig => kinds::CLIENT_METRICS_CONFIG,
        Kind::FeaturesEpoch => kinds::FEATURES_EPOCH,
        Kind::PartitionDirAssignment => kinds::PARTITION_DIR_ASSIGNMENT,
        Kind::PartitionOffsetAdvance => kinds::PARTITION_OFFSET_ADVANCE,
        Kind::GroupConfig => kinds::GROUP_CONFIG,
        Kind::ControllerRegistration => kinds::CONTROLLER_REGISTRATION,
        Kind::TopicFreeze => kinds::TOPIC_FREEZE,
        Kind::BreakGlassProposal => kinds::BREAK_GLASS_PROPOSAL,
        Kind::DeleteBreakGlassProposal => kinds::DELETE_BREAK_GLASS_PROPOSAL,
        Kind::PartitionElr => kinds::PARTITION_ELR,
        Kind::PartitionRecovery => kinds::PARTITION_RECOVERY,
        Kind::PartitionUpdate => kinds::PARTITION_UPDATE,
        Kind::BrokerRegistrationChange => kinds::BROKER_REGISTRATION_CHANGE,
        Kind::UnregisterController => kinds::UNREGISTER_CONTROLLER,
        Kind::LogOffset => kinds::LOG_OFFSET,
    }
}

// What is wrong with the fields of three lists in a record of a kind.
fn fields_fault(kind: Kind, tags: &[u8], lengths: &[u16], values: &[u8]) -> u8
    ensures { result ≡ fault framed kind (gathered tags.now lengths.now values.now) }
{
    let rows = all_rows();
    given_faults(
        &rows,
        framed_base_of(kind_number(kind)),
        tags,
        lengths,
        values,
    )
}

// How long the bytes of some fields are.
fn body_length(lengths: &[u16]) -> usize
    requires { body_length lengths.now < 65536 }
    ensures { result ≡ body_length lengths.now }
{
    let mut n = 0;
    let mut i = 0;
    while i < lengths.len() {
        n += 3 + lengths[i] as usize;
        i += 1;
    }
    n
}

// Writes what a record and a field begin with: a byte, and a length of two bytes.
pub fn put_head(out: &mut [u8], at: usize, first: u8, len: usize)
    requires { at + 3 ≤ length out.old }
    ensures { out.new ≡ put_at out.old at (head first len) }
{
    out[at] = first;
    wire::put(out, at + 1, 2, len as u64);
}

// Writes a field: its tag, its length and its value.
pub fn put_field(out: &mut [u8], at: usize, tag: u8, v: &[u8])
    requires { at + 3 + length v.now ≤ length out.old }
    ensures { out.new ≡ put_at out.old at (head tag (length v.now) ++ v.now) }
{
    put_head(out, at, tag, v.len());
    wire::copy(out, at + 3, v);
}

// Writes a record of a kind whose one field is a number. Where it ends.
pub fn put_number(out: &mut [u8], at: usize, kind: u8, width: usize, n: u64) -> usize
    requires { (width ≤ 8) × (at + 6 + width ≤ length out.old) }
    ensures { (result ≡ at + 6 + width) × (out.new ≡ put_at out.old at (number_bytes kind width n)) }
{
    put_head(out, at, kind, 3 + width);
    put_head(out, at + 3, 1, width);
    wire::put(out, at + 6, width, n);
    at + 6 + width
}

// Writes the fields of three lists at `at`, one after the other.
fn put_fields(out: &mut [u8], at: usize, tags: &[u8], lengths: &[u16], values: &[u8])
    requires whole { Whole (gathered tags.now lengths.now values.now) }
    requires values_in_bounds { at + length (bytes_of (gathered tags.now lengths.now values.now)) ≤ length out.old }
    ensures { out.new ≡ put_at out.old at (bytes_of (gathered tags.now lengths.now values.now)) }
{
    let mut to = at;
    let mut start = 0;
    let mut i = 0;
    while i < tags.len() {
        let len = lengths[i] as usize;
        let end = start + len;
        put_field(out, to, tags[i], &values[start..end]);
        to = to + 3 + len;
        start = end;
        i += 1;
    }
}

// Writes a record of a kind with the fields of three lists: tags, lengths, and the values back to back. The bytes written.
pub fn write(kind: Kind, tags: &[u8], lengths: &[u16], values: &[u8], out: &mut [u8]) -> Answer
    ensures result_value { replied result ≡ (write_of kind tags.now lengths.now values.now out.old).reply }
    ensures out_after { out.new ≡ (write_of kind tags.now lengths.now values.now out.old).buffer }
{
    let f = fields_fault(kind, tags, lengths, values);
    if f != 0 {
        return Answer::Refused(f);
    }
    let len = body_length(lengths);
    let size = 3 + len;
    if out.len() < size {
        return Answer::Refused(TOO_SHORT);
    }
    put_head(out, 0, kind_number(kind), len);
    put_fields(out, 3, tags, lengths, values);
    Answer::Used(size)
}
