// Downgrade: the records that take an image to a metadata level.
#![tactic(auto)]

ghost use Rattle.std.specs.Prelude.{◌≡◌, true, ◌+◌, ◌*◌, ◌≤◌, length};
ghost use Rattle.model.specs.Image.{is_image, contents_of};
ghost use Rattle.model.specs.Snapshot.{emit};
ghost use Rattle.model.specs.Downgrade.{downgrade as downgrade_records, downgrade_of};
ghost use Rattle.model.specs.Answers.{replied};
ghost use Rattle.records.specs.Answers.{put_at};
ghost use Rattle.entries.specs.Entries.{Entries, IsRecord, record_in};
ghost use Rattle.downgrade.specs.Listed.{listed_bytes, listed_in};

use downgrade_brokers::{DIRECTORIES_LEVEL, is_under, projected_size, put_projected};
use downgrade_slots::{assignments_size, put_assignments};
use entries::{Cursor, Step};
use find::reals_end;
use header::HEAD_SIZE;
use image::is_image;
use model::answers::Answer;
use model::kinds::{BROKER_REGISTRATION, PARTITION};
use model::refusals::{NO_IMAGE, TOO_SHORT};

// How long the records of an entry are.
fn listed_size(s: &[u8], level: u16) -> usize
    requires { IsRecord s.now }
    ensures { (result ≡ length (listed_bytes level (record_in s.now))) × (result ≤ 19 * length s.now) }
{
    if s[0] == BROKER_REGISTRATION {
        return projected_size(s, level);
    }
    if s[0] != PARTITION {
        return 0;
    }
    if !is_under(level, DIRECTORIES_LEVEL) {
        return 0;
    }
    assignments_size(s)
}

// Writes the records of an entry. Where they end.
fn put_listed(out: &mut [u8], at: usize, s: &[u8], level: u16) -> usize
    requires { IsRecord s.now × (at + length (listed_bytes level (record_in s.now)) ≤ length out.old) }
    ensures { (result ≡ at + length (listed_bytes level (record_in s.now))) × (out.new ≡ put_at out.old at (listed_bytes level (record_in s.now))) }
{
    if s[0] == BROKER_REGISTRATION {
        return put_projected(out, at, s, level);
    }
    if s[0] != PARTITION {
        return at;
    }
    if !is_under(level, DIRECTORIES_LEVEL) {
        return at;
    }
    put_assignments(out, at, s)
}

// How long the records of some entries are.
fn listed_length(s: &[u8], level: u16) -> usize
    requires { Entries s.now × (length s.now ≤ 65536) }
    ensures { result ≡ length (listed_in level s.now) }
{
    let mut c = Cursor { at: 0 };
    let mut n = 0;
    loop {
        match c.next(s) {
            Step::Entry(start, end, next) => {
                c = next;
                n = n + listed_size(&s[start..end], level);
            }
            Step::Torn => {
                return n;
            }
            Step::End => {
                return n;
            }
        }
    }
}

// Writes the records of some entries to the start of an output. How many bytes they are.
fn put_entries(out: &mut [u8], s: &[u8], level: u16) -> usize
    requires { Entries s.now × (length (listed_in level s.now) ≤ length out.old) }
    ensures { (result ≡ length (listed_in level s.now)) × (out.new ≡ put_at out.old 0 (listed_in level s.now)) }
{
    let mut c = Cursor { at: 0 };
    let mut n = 0;
    loop {
        match c.next(s) {
            Step::Entry(start, end, next) => {
                c = next;
                n = put_listed(out, n, &s[start..end], level);
            }
            Step::Torn => {
                return n;
            }
            Step::End => {
                return n;
            }
        }
    }
}

// Writes the records of an image. The bytes written, or 19 and nothing is written.
fn emit_listed(image: &[u8], level: u16, out: &mut [u8]) -> Answer
    requires { is_image image.now ≡ true }
    ensures result_value { replied result ≡ (emit (downgrade_records level (contents_of image.now)) out.old).reply }
    ensures out_after { out.new ≡ (emit (downgrade_records level (contents_of image.now)) out.old).buffer }
{
    let end = reals_end(image);
    if out.len() < listed_length(&image[HEAD_SIZE..end], level) {
        return Answer::Refused(TOO_SHORT);
    }
    Answer::Used(put_entries(out, &image[HEAD_SIZE..end], level))
}

// The records that take an image to a metadata level, the 16 bits of a signed number: changed brokers, then, below level 17, directory
// assignments. The bytes written, or 19 and nothing is written.
pub fn downgrade(image: &[u8], level: u16, out: &mut [u8]) -> Answer
    ensures result_value { replied result ≡ (downgrade_of image.now level out.old).reply }
    ensures out_after { out.new ≡ (downgrade_of image.now level out.old).buffer }
{
    if !is_image(image) {
        return Answer::Refused(NO_IMAGE);
    }
    emit_listed(image, level, out)
}
