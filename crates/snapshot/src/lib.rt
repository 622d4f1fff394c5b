// Snapshot: what an image holds, as records: the log offset, and the entries in the order of their keys.
#![tactic(auto)]

ghost use Rattle.std.specs.Prelude.{◌≡◌, true, ◌++◌, ◌+◌, ◌≤◌, ltb, length, take};
ghost use Rattle.model.specs.Choice.{joined};
ghost use Rattle.model.specs.Record.{record_bytes};
ghost use Rattle.model.specs.Image.{head_size, fixed_in, is_image, contents_of};
ghost use Rattle.model.specs.Snapshot.{offset_size, lengths, snapshot as snapshot_records, emit, snapshot_of};
ghost use Rattle.model.specs.Answers.{replied};
ghost use Rattle.records.specs.Answers.{put_at};
ghost use Rattle.entries.specs.Entries.{records_in, Entries};
ghost use Rattle.find.specs.Found.{AllKept};
ghost use Rattle.find.specs.Reals.{Reals};
ghost use Rattle.snapshot.specs.Returned.{returned_records, returned_in, returned_at, Behind, first_records, epoch_in, kraft_in, offset_bytes, epoch_bytes, kraft_bytes};

use entries::{Cursor, Step};
use find::{put_returned, reals_end, returned_size};
use header::{HEAD_SIZE, epoch_in, kraft_in, offset_in};
use image::is_image;
use model::answers::Answer;
use model::kinds::{FEATURES_EPOCH, KRAFT_VERSION, LOG_OFFSET};
use model::refusals::{NO_IMAGE, TOO_SHORT};
use records::put_number;

const NEGATIVE: u64 = 0x8000_0000_0000_0000;

const NO_VERSION: u64 = 0;

// How long the log offset's record is, with which a snapshot starts.
const OFFSET_SIZE: usize = 14;

// How long the records of the offset, the epoch and the kraft version are at most.
const FIXED_MOST: usize = OFFSET_SIZE + 14 + 8;

// How long the records of some entries are.
fn returned_length(s: &[u8]) -> usize
    requires { Entries s.now × AllKept (records_in s.now) }
    ensures { (result ≡ length (returned_in s.now)) × (result ≤ length s.now) }
{
    let mut c = Cursor { at: 0 };
    let mut n = 0;
    loop {
        match c.next(s) {
            Step::Entry(start, end, next) => {
                c = next;
                n = n + returned_size(&s[start..end]);
            }
            Step::Torn => {
                return n;
            }
            Step::End => {
                return n;
            }
        }
    }
}

// Places an entry's record behind the earlier ones: `total` is how long those are. The total with this one.
fn place_entry(out: &mut [u8], total: usize, s: &[u8], start: usize, end: usize) -> usize
    requires behind { Behind s.now start end × (total ≡ offset_size + lengths (returned_records (take start s.now))) }
    requires end_in_bounds { total + length (record_bytes (returned_at s.now start end)) ≤ length out.old }
    ensures value { (result ≡ total + length (record_bytes (returned_at s.now start end))) × (result ≡ offset_size + lengths (returned_records (take end s.now))) }
    ensures out_after { out.new ≡ put_at out.old total (record_bytes (returned_at s.now start end)) }
{
    put_returned(out, total, &s[start..end]);
    total + returned_size(&s[start..end])
}

// Places the records of some entries behind the offset's: `offset` is how long that is. The total with these.
fn put_entries(out: &mut [u8], offset: usize, s: &[u8]) -> usize
    requires { Entries s.now × AllKept (records_in s.now) × (offset ≡ offset_size) × (offset + length (returned_in s.now) ≤ length out.old) }
    ensures { (result ≡ offset + lengths (returned_records s.now)) × (out.new ≡ put_at out.old offset (returned_in s.now)) }
{
    let mut c = Cursor { at: 0 };
    let mut total = offset;
    loop {
        match c.next(s) {
            Step::Entry(start, end, next) => {
                c = next;
                total = place_entry(out, total, s, start, end);
            }
            Step::Torn => {
                return total;
            }
            Step::End => {
                return total;
            }
        }
    }
}

// Places the log offset's record at the start of an output. How long it is.
fn put_offset(out: &mut [u8], image: &[u8]) -> usize
    requires { (head_size ≤ length image.now) × (offset_size ≤ length out.old) }
    ensures { (result ≡ offset_size) × (out.new ≡ put_at out.old 0 (offset_bytes (fixed_in image.now).offset)) }
{
    put_number(out, 0, LOG_OFFSET, 8, offset_in(image))
}

// How long the epoch's record is, 0 where there is none.
fn epoch_length(epoch: u64) -> usize
    ensures { (result ≡ length (epoch_bytes epoch)) × (result ≤ 14) }
{
    if epoch < NEGATIVE {
        return 14;
    }
    0
}

// How long the kraft version's record is, 0 where there is none.
fn kraft_length(kraft: u64) -> usize
    ensures { (result ≡ length (kraft_bytes kraft)) × (result ≤ 8) }
{
    if kraft == NO_VERSION {
        return 0;
    }
    8
}

// Places the epoch's record, where there is one, behind the offset's and the entries': `total` is how long those are. The total with this one.
fn put_epoch(out: &mut [u8], total: usize, image: &[u8]) -> usize
    requires head_size_in_bounds { (head_size ≤ length image.now) × (total ≡ lengths (first_records image.now)) }
    requires image_in_bounds { total + lengths (epoch_in image.now) ≤ length out.old }
    ensures { (result ≡ total + lengths (epoch_in image.now)) × (out.new ≡ put_at out.old total (joined record_bytes (epoch_in image.now))) }
{
    let epoch = epoch_in(image);
    if epoch < NEGATIVE {
        return put_number(out, total, FEATURES_EPOCH, 8, epoch);
    }
    total
}

// Places the kraft version's record, where there is one, behind those: `total` is how long they are. The total with this one.
fn put_kraft(out: &mut [u8], total: usize, image: &[u8]) -> usize
    requires head_size_in_bounds { (head_size ≤ length image.now) × (total ≡ lengths (first_records image.now ++ epoch_in image.now)) }
    requires image_in_bounds { total + lengths (kraft_in image.now) ≤ length out.old }
    ensures { (result ≡ total + lengths (kraft_in image.now)) × (out.new ≡ put_at out.old total (joined record_bytes (kraft_in image.now))) }
{
    let kraft = kraft_in(image);
    if kraft == NO_VERSION {
        return total;
    }
    put_number(out, total, KRAFT_VERSION, 2, kraft)
}

// Whether an output is too short for an image's records, whose entries end at `end`. They are no longer than the entries and the three longest
// records of the fixed parts: only an output that is shorter than that is held to their very length, which takes a walk.
fn is_too_short(image: &[u8], end: usize, room: usize) -> bool
    requires { Reals image.now end }
    ensures { result ≡ ltb room (lengths (snapshot_records (contents_of image.now))) }
{
    if end - HEAD_SIZE + FIXED_MOST <= room {
        return false;
    }
    let entries = returned_length(&image[HEAD_SIZE..end]);
    room < OFFSET_SIZE + entries + epoch_length(epoch_in(image)) + kraft_length(kraft_in(image))
}

// Writes an image's records. The bytes written, or 19 and nothing is written.
pub fn emit_records(image: &[u8], out: &mut [u8]) -> Answer
    requires { is_image image.now ≡ true }
    ensures result_value { replied result ≡ (emit (snapshot_records (contents_of image.now)) out.old).reply }
    ensures out_after { out.new ≡ (emit (snapshot_records (contents_of image.now)) out.old).buffer }
{
    let end = reals_end(image);
    if is_too_short(image, end, out.len()) {
        return Answer::Refused(TOO_SHORT);
    }
    let offset = put_offset(out, image);
    let entries = put_entries(out, offset, &image[HEAD_SIZE..end]);
    let total = put_epoch(out, entries, image);
    Answer::Used(put_kraft(out, total, image))
}

// An image's records into an output: the bytes written, which are a prefix of it.
pub fn snapshot(image: &[u8], out: &mut [u8]) -> Answer
    ensures result_value { replied result ≡ (snapshot_of image.now out.old).reply }
    ensures out_after { out.new ≡ (snapshot_of image.now out.old).buffer }
{
    if !is_image(image) {
        return Answer::Refused(NO_IMAGE);
    }
    emit_records(image, out)
}
