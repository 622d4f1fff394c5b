// A viewer's snapshot: the records under visible names, in the order of their keys. The first walk measures them, the second places each behind the
// earlier ones.
#![tactic(auto)]

ghost use Rattle.std.specs.Prelude.{◌≡◌, true, ◌+◌, ◌*◌, ◌≤◌, length};
ghost use Rattle.model.specs.Image.{is_image, contents_of};
ghost use Rattle.model.specs.Snapshot.{emit};
ghost use Rattle.model.specs.View.{prefixes_in, prefix_fault, view_records, view_snapshot_of};
ghost use Rattle.model.specs.Answers.{replied};
ghost use Rattle.records.specs.Answers.{put_at};
ghost use Rattle.entries.specs.Entries.{Entries, IsRecord, record_in};
ghost use Rattle.view_snapshot.specs.Seen.{seen_bytes, seen_in};

use entries::{Cursor, Step};
use find::{put_returned, reals_end, returned_size};
use header::HEAD_SIZE;
use model::answers::Answer;
use model::refusals::TOO_SHORT;
use views::{is_seen, viewer_fault};

// How long an entry's record is, 0 where it is not seen.
fn seen_size(e: &[u8], list: &[u8]) -> usize
    requires { IsRecord e.now × (prefix_fault list.now ≡ 0) }
    ensures { (result ≡ length (seen_bytes (prefixes_in list.now) (record_in e.now))) × (result ≤ 19 * length e.now) }
{
    if !is_seen(e, list) {
        return 0;
    }
    returned_size(e)
}

// Places an entry's record, where it is seen, behind the earlier ones: `total` is how long those are. The total with this one.
fn place_seen(out: &mut [u8], total: usize, e: &[u8], list: &[u8]) -> usize
    requires { IsRecord e.now × (prefix_fault list.now ≡ 0) × (total + length (seen_bytes (prefixes_in list.now) (record_in e.now)) ≤ length out.old) }
    ensures { (result ≡ total + length (seen_bytes (prefixes_in list.now) (record_in e.now))) × (out.new ≡ put_at out.old total (seen_bytes (prefixes_in list.now) (record_in e.now))) }
{
    if !is_seen(e, list) {
        return total;
    }
    put_returned(out, total, e);
    total + returned_size(e)
}

// How long the records of some entries are.
fn seen_length(s: &[u8], list: &[u8]) -> usize
    requires { Entries s.now × (length s.now ≤ 65536) × (prefix_fault list.now ≡ 0) }
    ensures { result ≡ length (seen_in (prefixes_in list.now) s.now) }
{
    let mut c = Cursor { at: 0 };
    let mut n = 0;
    loop {
        match c.next(s) {
            Step::Entry(start, end, next) => {
                c = next;
                n = n + seen_size(&s[start..end], list);
            }
            Step::Torn => {
                return n;
            }
            Step::End => {
                return n;
            }
        }
    }
}

// Writes the records of some entries to the start of an output. How many bytes they are.
fn put_entries(out: &mut [u8], s: &[u8], list: &[u8]) -> usize
    requires { Entries s.now × (length (seen_in (prefixes_in list.now) s.now) ≤ length out.old) × (prefix_fault list.now ≡ 0) }
    ensures { (result ≡ length (seen_in (prefixes_in list.now) s.now)) × (out.new ≡ put_at out.old 0 (seen_in (prefixes_in list.now) s.now)) }
{
    let mut c = Cursor { at: 0 };
    let mut total = 0;
    loop {
        match c.next(s) {
            Step::Entry(start, end, next) => {
                c = next;
                total = place_seen(out, total, &s[start..end], list);
            }
            Step::Torn => {
                return total;
            }
            Step::End => {
                return total;
            }
        }
    }
}

// Writes the records of an image that are seen. The bytes written, or 19 and nothing is written.
fn emit_seen(image: &[u8], list: &[u8], out: &mut [u8]) -> Answer
    requires { (is_image image.now ≡ true) × (prefix_fault list.now ≡ 0) }
    ensures result_value { replied result ≡ (emit (view_records (prefixes_in list.now) (contents_of image.now).real) out.old).reply }
    ensures out_after { out.new ≡ (emit (view_records (prefixes_in list.now) (contents_of image.now).real) out.old).buffer }
{
    let end = reals_end(image);
    if out.len() < seen_length(&image[HEAD_SIZE..end], list) {
        return Answer::Refused(TOO_SHORT);
    }
    Answer::Used(put_entries(out, &image[HEAD_SIZE..end], list))
}

// The records of an image under visible names: topics, partitions, offsets, ELR, recovery and topic configs, whether or not the topic itself is stored.
// The log offset is not among them. The bytes written, which are a prefix of the output.
pub fn view_snapshot(image: &[u8], list: &[u8], out: &mut [u8]) -> Answer
    ensures result_value { replied result ≡ (view_snapshot_of image.now list.now out.old).reply }
    ensures out_after { out.new ≡ (view_snapshot_of image.now list.now out.old).buffer }
{
    let f = viewer_fault(image, list);
    if f != 0 {
        return Answer::Refused(f);
    }
    emit_seen(image, list, out)
}
