// The freezes of a list of names in one pass over the stored ones. The output is the only memory: of each name the index of the last freeze that
// fits it, first among the prefixes and then among the literal scopes. Scopes ascend, so that the last prefix that fits is the longest.
#![tactic(auto)]

ghost use Rattle.std.specs.Prelude.{◌≡◌, [], ◌++◌, ◌*◌, ◌≤◌, length, drop};
ghost use Rattle.std.proofs.Math.Option.{some};
ghost use Rattle.model.specs.Choice.{joined};
ghost use Rattle.model.specs.Number.{bytes};
ghost use Rattle.model.specs.Order.{same_bytes};
ghost use Rattle.model.specs.Contents.{key};
ghost use Rattle.model.specs.FreezeList.{last_name, freeze_index, freezes_read, freeze_list_of};
ghost use Rattle.model.specs.Answers.{count_reply};
ghost use Rattle.laws.specs.Map.{Asc};
ghost use Rattle.laws_freezes.specs.Freezes.{read_walk};
ghost use Rattle.entries.specs.Entries.{Entries};
ghost use Rattle.entries.specs.Held.{entries_in};
ghost use Rattle.names.specs.Lists.{last_or};
ghost use Rattle.name_marks.specs.Marks.{Accepted, jobs, Behind};
ghost use Rattle.lookup_freeze_list.specs.Passes.{pattern_of, pattern_in, scope_in, passed, ScopeAs};

use entries::{Cursor, Step};
use find::reals_end;
use header::HEAD_SIZE;
use image::is_image;
use keys::value_at;
use model::answers::Counted;
use model::kinds::TOPIC_FREEZE;
use model::refusals::{NO_IMAGE, TOO_SHORT};
use name_marks::{Window, fill, is_below, mark_from};
use names::{Checked, check};
use wire::same;

// The most names of a list.
const JOB_LIMIT: usize = 256;

// The index of a name without a freeze.
const NO_FREEZE: u64 = 0xffff;

// Whether an entry is a freeze of a pattern.
fn has_pattern(e: &[u8], literal: bool) -> bool
    requires { 3 ≤ length e.now }
    ensures { result ≡ same_bytes (pattern_in e.now) (pattern_of literal) }
{
    let p = value_at(e, 2);
    let start = p.start;
    let end = p.end;
    if literal {
        return same(&e[start..end], b"\x00");
    }
    same(&e[start..end], b"\x01")
}

// What the scope of a freeze comes to: it is above the last name, or the window of the scopes to come.
#[derive(Clone, Copy)]
enum Scope {
    Above,
    From(Window),
}

// Reads a freeze.
fn turn(
    out: &mut [u8],
    list: &[u8],
    last: usize,
    e: &[u8],
    from: Window,
    literal: bool,
    index: u64,
) -> Scope
    requires { Accepted list.now × (2 * length (jobs list.now) ≤ length out.old) × (last ≤ length list.now) × (3 ≤ length e.now) × Behind list.now from (scope_in e.now) }
    ensures { ScopeAs list.now (drop last list.now) (scope_in e.now) literal index out.old out.new result }
{
    let p = value_at(e, 1);
    let start = p.start;
    let end = p.end;
    if is_below(&list[last..], &e[start..end]) {
        return Scope::Above;
    }
    Scope::From(mark_from(out, list, from, &e[start..end], literal, index))
}

// Reads the freezes of a pattern in order, up to the first above the last name. How many were read. The index counts those of either pattern.
fn pass(s: &[u8], list: &[u8], last: usize, literal: bool, out: &mut [u8]) -> u64
    requires { Entries s.now × Asc key (entries_in s.now) × Accepted list.now × (2 * length (jobs list.now) ≤ length out.old) × (last ≤ length list.now) × (last_name (jobs list.now) ≡ some (drop last list.now)) }
    ensures value { (result ≡ read_walk (pattern_of literal) (drop last list.now) (entries_in s.now)) × (3 * result ≤ length s.now) }
    ensures out_after { out.new ≡ passed literal (jobs list.now) 0 (entries_in s.now) out.old }
{
    let mut c = Cursor { at: 0 };
    let mut w = Window { at: 0, n: 0 };
    let mut index: u64 = 0;
    let mut read: u64 = 0;
    loop {
        match c.next(s) {
            Step::Entry(start, end, next) => {
                c = next;
                if s[start] != TOPIC_FREEZE {
                    continue;
                }
                let here = index;
                index = index + 1;
                if !has_pattern(&s[start..end], literal) {
                    continue;
                }
                read = read + 1;
                match turn(out, list, last, &s[start..end], w, literal, here) {
                    Scope::Above => {
                        return read;
                    }
                    Scope::From(next_window) => {
                        w = next_window;
                    }
                }
            }
            Step::Torn => {
                return read;
            }
            Step::End => {
                return read;
            }
        }
    }
}

// Writes the indexes of the names of a list. How many freezes were read.
fn write_indexes(s: &[u8], list: &[u8], n: usize, last: usize, out: &mut [u8]) -> u64
    requires { Entries s.now × Asc key (entries_in s.now) × Accepted list.now × (length (jobs list.now) ≡ n) × (2 * n ≤ length out.old) × (last ≤ length list.now) × (last_or [] (jobs list.now) ≡ drop last list.now) }
    ensures out_after { out.new ≡ joined (λ name. bytes 2 (freeze_index (entries_in s.now) name)) (jobs list.now) ++ drop (2 * n) out.old }
    ensures value { result ≡ freezes_read (jobs list.now) (entries_in s.now) }
{
    if n == 0 {
        return 0;
    }
    fill(out, 2 * n);
    let prefixes = pass(s, list, last, false, out);
    let literals = pass(s, list, last, true, out);
    mark_from(out, list, Window { at: 0, n: 0 }, b"__", false, NO_FREEZE);
    prefixes + literals
}

// The index of each name's freeze, as the lookup of the name alone finds it, among the stored freezes in snapshot order; hex FFFF for none. The bytes
// written, two to a name, and the freezes read.
pub fn freeze_list(image: &[u8], list: &[u8], out: &mut [u8]) -> Counted
    ensures result_value { count_reply result ≡ (freeze_list_of image.now list.now out.old).reply }
    ensures out_after { out.new ≡ (freeze_list_of image.now list.now out.old).buffer }
{
    if !is_image(image) {
        return Counted::Refused(NO_IMAGE);
    }
    match check(list, JOB_LIMIT, true) {
        Checked::Refused(number) => Counted::Refused(number),
        Checked::Names(n, last) => {
            if out.len() < 2 * n {
                return Counted::Refused(TOO_SHORT);
            }
            let end = reals_end(image);
            let read = write_indexes(&image[HEAD_SIZE..end], list, n, last, out);
            Counted::Written(2 * n, read)
        }
    }
}
