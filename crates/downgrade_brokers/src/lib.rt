// A broker as a metadata level knows it: with no log dirs below 17, and without cordoned dirs below 30.
#![tactic(auto)]

ghost use Rattle.std.specs.Prelude.{◌≡◌, ◌+◌, ◌<◌, ◌≤◌, length};
ghost use Rattle.model.specs.Run.{bytes_of};
ghost use Rattle.model.specs.Downgrade.{is_under};
ghost use Rattle.laws_records.specs.Runs.{Whole};
ghost use Rattle.keys.specs.Keys.{kind_in, run_in};
ghost use Rattle.entries.specs.Entries.{IsRecord};
ghost use Rattle.records.specs.Answers.{put_at};
ghost use Rattle.downgrade_brokers.specs.Known.{empty_tag, gone_tag, known, known_field, known_size, projected_bytes};

use fields::{Cursor, Step};
use model::kinds::BROKER_REGISTRATION;
use records::{put_field, put_head};

const LOG_DIRS: usize = 8;

const CORDONED_DIRS: usize = 11;

// The first levels that know directories and cordoned directories.
pub const DIRECTORIES_LEVEL: u64 = 17;

const CORDONED_LEVEL: u64 = 30;

// Whether a level, the bits of a signed number, is under one that is not negative.
pub fn is_under(level: u16, least: u64) -> bool
    requires { least < 32768 }
    ensures { result ≡ is_under level least }
{
    (level as u64 + 0x8000) % 0x1_0000 < least + 0x8000
}

// The tag of the field that a level knows as empty, 0 where there is none.
fn empty_tag(level: u16) -> usize
    ensures { result ≡ empty_tag level }
{
    if is_under(level, DIRECTORIES_LEVEL) {
        return LOG_DIRS;
    }
    0
}

// The tag of the field that a level does not know, 0 where there is none.
fn gone_tag(level: u16) -> usize
    ensures { result ≡ gone_tag level }
{
    if is_under(level, CORDONED_LEVEL) {
        return CORDONED_DIRS;
    }
    0
}

// How long a field is as it is known.
fn known_size(tag: usize, len: usize, empty: usize, gone: usize) -> usize
    requires { len < 65536 }
    ensures { result ≡ known_size empty gone tag len }
{
    if tag == gone {
        return 0;
    }
    if tag == empty {
        return 3;
    }
    3 + len
}

// How long a record's fields are as they are known.
fn known_length(s: &[u8], empty: usize, gone: usize) -> usize
    requires { (3 ≤ length s.now) × Whole (run_in s.now) }
    ensures { (result ≡ length (bytes_of (known empty gone (run_in s.now)))) × (result + 3 ≤ length s.now) }
{
    let mut c = Cursor { at: 3, to: s.len() };
    let mut n = 0;
    loop {
        match c.next(s) {
            Step::Field {
                tag,
                start,
                len,
                next,
            } => {
                c = next;
                n = n + known_size(tag, len, empty, gone);
            }
            Step::Torn => {
                return n;
            }
            Step::End => {
                return n;
            }
        }
    }
}

// Writes a field as it is known. Where it ends.
fn put_known(out: &mut [u8], at: usize, tag: usize, v: &[u8], empty: usize, gone: usize) -> usize
    requires { (tag < 256) × (at + length (known_field empty gone tag v.now) ≤ length out.old) }
    ensures { (result ≡ at + length (known_field empty gone tag v.now)) × (out.new ≡ put_at out.old at (known_field empty gone tag v.now)) }
{
    if tag == gone {
        return at;
    }
    if tag == empty {
        put_head(out, at, tag as u8, 0);
        return at + 3;
    }
    put_field(out, at, tag as u8, v);
    at + 3 + v.len()
}

// Writes a record's fields as they are known. Where they end.
fn put_run(out: &mut [u8], at: usize, s: &[u8], empty: usize, gone: usize) -> usize
    requires { (3 ≤ length s.now) × Whole (run_in s.now) × (at + length (bytes_of (known empty gone (run_in s.now))) ≤ length out.old) }
    ensures { (result ≡ at + length (bytes_of (known empty gone (run_in s.now)))) × (out.new ≡ put_at out.old at (bytes_of (known empty gone (run_in s.now)))) }
{
    let mut c = Cursor { at: 3, to: s.len() };
    let mut to = at;
    loop {
        match c.next(s) {
            Step::Field {
                tag,
                start,
                len,
                next,
            } => {
                let end = start + len;
                c = next;
                to = put_known(out, to, tag, &s[start..end], empty, gone);
            }
            Step::Torn => {
                return to;
            }
            Step::End => {
                return to;
            }
        }
    }
}

// How long a broker's record is as a level knows it, 0 where that is the broker's own.
pub fn projected_size(s: &[u8], level: u16) -> usize
    requires { IsRecord s.now × (kind_in s.now ≡ 3) }
    ensures { (result ≡ length (projected_bytes level (run_in s.now))) × (result ≤ length s.now) }
{
    let size = 3 + known_length(s, empty_tag(level), gone_tag(level));
    if size < s.len() {
        return size;
    }
    0
}

// Writes a broker's record as a level knows it, nothing where that is the broker's own. Where it ends.
pub fn put_projected(out: &mut [u8], at: usize, s: &[u8], level: u16) -> usize
    requires { IsRecord s.now × (kind_in s.now ≡ 3) × (at + length (projected_bytes level (run_in s.now)) ≤ length out.old) }
    ensures { (result ≡ at + length (projected_bytes level (run_in s.now))) × (out.new ≡ put_at out.old at (projected_bytes level (run_in s.now))) }
{
    let size = projected_size(s, level);
    if size == 0 {
        return at;
    }
    put_head(out, at, BROKER_REGISTRATION, size - 3);
    put_run(out, at + 3, s, empty_tag(level), gone_tag(level))
}
