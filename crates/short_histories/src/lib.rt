// All short histories of a few records: a number gives the bytes of its history. Shorter ones come first, then by the positions, leftmost first.
#![tactic(auto)]

ghost use Rattle.std.specs.Prelude.{◌≡◌, ◌+◌, ◌^◌, ◌≤◌, ◌<◌, length};
ghost use Rattle.model.specs.Reply.{emit_bytes};
ghost use Rattle.model.specs.ShortHistory.{positions, history_bytes, history_of};
ghost use Rattle.model.specs.Answers.{replied};
ghost use Rattle.shapes.specs.Table.{table};
ghost use Rattle.records.specs.Answers.{put_at};
ghost use Rattle.short_histories.specs.Histories.{records_in, CountAs, FoundAs, PartAs};

use keys::Part;
use model::answers::Answer;
use model::refusals::{OVER_A_LIMIT, PAST_THE_LAST, TOO_SHORT};
use records::{Source, read_from};
use shapes::all_rows;
use wire::get16;

// How many records there may be, and how long a history is at most.
const RECORD_LIMIT: usize = 8;

const LENGTH_LIMIT: usize = 4;

// No records have no histories.
const NO_RECORDS: usize = 0;

// How many records there are, or the refusal of the first at fault.
#[derive(Clone, Copy)]
enum Count {
    Records(usize),
    Refused(u8),
}

// Reads the records one after the other. A ninth is not read.
fn count_records(rows: &[u32], s: &[u8]) -> Count
    requires { rows.now ≡ table }
    ensures { CountAs s.now result }
{
    let mut at = 0;
    let mut n = 0;
    while at < s.len() {
        if n == RECORD_LIMIT {
            return Count::Refused(OVER_A_LIMIT);
        }
        match read_from(rows, &s[at..], Source::Framed) {
            Answer::Refused(number) => {
                return Count::Refused(number);
            }
            Answer::Used(used) => {
                at = at + used;
                n = n + 1;
            }
        }
    }
    Count::Records(n)
}

// How many histories of a length there are.
fn power(n: usize, len: usize) -> usize
    requires { (n ≤ 8) × (len ≤ 4) }
    ensures { result ≡ n ^ len }
{
    let mut p = 1;
    let mut i = 0;
    while i < len {
        p = p * n;
        i = i + 1;
    }
    p
}

// A history by its length and its number among those of the length; or there is none.
#[derive(Clone, Copy)]
enum Found {
    History(usize, usize),
    Past,
}

// Finds the history under a number: as many as are shorter are left out.
fn find_history(n: usize, number: usize) -> Found
    requires { n ≤ 8 }
    ensures { FoundAs n number result }
{
    let mut i = number;
    let mut len = 0;
    while len <= LENGTH_LIMIT {
        let p = power(n, len);
        if i < p {
            return Found::History(len, i);
        }
        i = i - p;
        len = len + 1;
    }
    Found::Past
}

// The record at a position: those before it are passed by their headers.
fn record_at(s: &[u8], position: usize) -> Part
    requires { position < length (records_in s.now) }
    ensures { PartAs s.now position result.start result.end }
{
    let mut at = 0;
    let mut left = position;
    while 0 < left {
        at = at + 3 + get16(s, at + 1);
        left = left - 1;
    }
    let end = at + 3 + get16(s, at + 1);
    Part { start: at, end }
}

// How many bytes a history has.
fn history_size(s: &[u8], n: usize, len: usize, index: usize) -> usize
    requires { (n ≡ length (records_in s.now)) × (0 < n) × (n ≤ 8) × (len ≤ 4) × (index < n ^ len) }
    ensures { result ≡ length (history_bytes (records_in s.now) (positions n len index)) }
{
    let mut i = index;
    let mut left = len;
    let mut size = 0;
    while 0 < left {
        left = left - 1;
        let p = power(n, left);
        let part = record_at(s, i / p);
        size = size + (part.end - part.start);
        i = i % p;
    }
    size
}

// Writes a history's records one after the other, from the leftmost position on.
fn put_history(s: &[u8], n: usize, len: usize, index: usize, out: &mut [u8])
    requires { (n ≡ length (records_in s.now)) × (0 < n) × (n ≤ 8) × (len ≤ 4) × (index < n ^ len) × (length (history_bytes (records_in s.now) (positions n len index)) ≤ length out.old) }
    ensures { out.new ≡ put_at out.old 0 (history_bytes (records_in s.now) (positions n len index)) }
{
    let mut i = index;
    let mut left = len;
    let mut at = 0;
    while 0 < left {
        left = left - 1;
        let p = power(n, left);
        let part = record_at(s, i / p);
        let start = part.start;
        let end = part.end;
        wire::copy(out, at, &s[start..end]);
        at = at + (end - start);
        i = i % p;
    }
}

// Writes a history: the bytes written, or 19.
fn emit_history(s: &[u8], n: usize, len: usize, index: usize, out: &mut [u8]) -> Answer
    requires { (n ≡ length (records_in s.now)) × (0 < n) × (n ≤ 8) × (len ≤ 4) × (index < n ^ len) }
    ensures result_value { replied result ≡ (emit_bytes (history_bytes (records_in s.now) (positions n len index)) out.old).reply }
    ensures out_after { out.new ≡ (emit_bytes (history_bytes (records_in s.now) (positions n len index)) out.old).buffer }
{
    let size = history_size(s, n, len, index);
    if out.len() < size {
        return Answer::Refused(TOO_SHORT);
    }
    put_history(s, n, len, index, out);
    Answer::Used(size)
}

// The history under a number, of the records that the input has: the bytes written.
pub fn history(input: &[u8], number: u64, out: &mut [u8]) -> Answer
    ensures result_value { replied result ≡ (history_of input.now number out.old).reply }
    ensures out_after { out.new ≡ (history_of input.now number out.old).buffer }
{
    let rows = all_rows();
    match count_records(&rows, input) {
        Count::Refused(refusal) => Answer::Refused(refusal),
        Count::Records(n) => {
            if n == NO_RECORDS {
                return Answer::Refused(OVER_A_LIMIT);
            }
            match find_history(n, number as usize) {
                Found::Past => Answer::Refused(PAST_THE_LAST),
                Found::History(len, index) => emit_history(input, n, len, index, out),
            }
        }
    }
}
