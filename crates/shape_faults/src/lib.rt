// The first fault of a run of fields, by the table: the one shape rule.
#![tactic(auto)]

ghost use Rattle.std.specs.Prelude.{◌≡◌, false, ◌+◌, ◌<◌, ◌≤◌, ◌^◌, length};
ghost use Rattle.std.proofs.Math.Option.{none};
ghost use Rattle.std.proofs.Math.Seq.{slice};
ghost use Rattle.model.specs.Shape.{start as nothing, text_fault, leaf_fault, count_fault, run_fault, below, offset, map_key, node_set, ascends as is_above};
ghost use Rattle.model.specs.Record.{gathered};
ghost use Rattle.shapes.specs.Table.{table, row_count, form_in, size_in, form_of, presence_of, rows_from};
ghost use Rattle.fields.specs.Fields.{fields_from, Inside};
ghost use Rattle.shape_faults.specs.Walk.{IsBase, IsRow, prior_key, PriorIn, no_key, begun, prior_for, count_for, before_in, presence_at, key_of, passed, check_at, limit_fault, list_fault, tag_fault, end_fault, field_fault};

use fields::{Cursor, Found, Step};
use model::refusals::{OVER_A_LIMIT, REPEATED, WRONG};
use reader::field;
use shapes::{form_in, many_in, prior_in, row_at, size_in};
use std::cmp::Ordering;

// Two of the wrong fields by name: a string that is no UTF-8, and a map's key that is not above the one before.
const NO_TEXT: u8 = WRONG;

const OUT_OF_ORDER: u8 = WRONG;

// The form of a run of a shape's fields.
const NESTED: u32 = 9;

// Where the key of the element before stands. There is none where the start is above the end.
#[derive(Clone, Copy)]
pub struct Prior {
    pub start: usize,
    pub end: usize,
}

// What came before a field: the last tag, how often it came, the key of its last element.
#[derive(Clone, Copy)]
pub struct Walk {
    pub last: usize,
    pub count: usize,
    pub prior: Prior,
}

// No key before.
pub fn no_key() -> Prior
    ensures { result ≡ no_key }
{
    Prior { start: 1, end: 0 }
}

// What is wrong with so many bytes or numbers: more than a limit.
fn limit_fault(n: usize, limit: usize) -> u8
    ensures { result ≡ limit_fault n limit }
{
    if n > limit {
        return OVER_A_LIMIT;
    }
    0
}

// What is wrong with a string: no UTF-8, then too long.
pub fn text_fault(v: &[u8], limit: usize) -> u8
    ensures { result ≡ text_fault limit v.now }
{
    if !wire::is_text(v) {
        return NO_TEXT;
    }
    limit_fault(v.len(), limit)
}

// Whether a map's key is above the key before it, if there is one.
fn ascends(s: &[u8], prior: Prior, v: &[u8]) -> bool
    requires { PriorIn s.now prior }
    ensures { result ≡ is_above (prior_key s.now prior) v.now }
{
    let start = prior.start;
    let end = prior.end;
    if start > end {
        return true;
    }
    match wire::compare(&s[start..end], v) {
        Ordering::Less => true,
        Ordering::Equal => false,
        Ordering::Greater => false,
    }
}

// What is wrong with a map's key: not above the key before it, then what is wrong with a string.
fn key_fault(s: &[u8], prior: Prior, v: &[u8], limit: usize) -> u8
    requires { PriorIn s.now prior }
    ensures { result ≡ leaf_fault (prior_key s.now prior) (map_key limit) v.now }
{
    if !ascends(s, prior, v) {
        return OUT_OF_ORDER;
    }
    text_fault(v, limit)
}

// What is wrong with a list of numbers of a width, by its length: no whole numbers, then too many.
fn list_fault(len: usize, width: usize, limit: usize) -> u8
    requires { 0 < width }
    ensures { result ≡ list_fault len width limit }
{
    if len % width != 0 {
        return WRONG;
    }
    limit_fault(len / width, limit)
}

// What is wrong with a list of nodes that holds none twice: its length, then a repeat.
fn set_fault(v: &[u8], limit: usize) -> u8
    ensures { result ≡ leaf_fault none (node_set limit) v.now }
{
    let f = list_fault(v.len(), 8, limit);
    if f != 0 {
        return f;
    }
    if nodes::apart_in(v) {
        return 0;
    }
    REPEATED
}

// What is wrong with a byte that has a bound.
fn below_fault(v: &[u8], bound: usize) -> u8
    ensures { result ≡ leaf_fault none (below bound) v.now }
{
    if v.len() != 1 {
        return WRONG;
    }
    if wire::size(v[0]) < bound {
        return 0;
    }
    WRONG
}

// What is wrong with a log offset.
fn offset_fault(v: &[u8]) -> u8
    ensures { result ≡ leaf_fault none offset v.now }
{
    if v.len() != 8 {
        return WRONG;
    }
    if wire::is_offset(wire::get(v, 0, 8)) {
        return 0;
    }
    WRONG
}

// What is wrong with a value that is no run, from one place to another.
pub fn leaf_fault(s: &[u8], prior: Prior, form: u32, size: usize, from: usize, to: usize) -> u8
    requires { PriorIn s.now prior × (from ≤ to) × (to ≤ length s.now) }
    ensures { result ≡ leaf_fault (prior_key s.now prior) (form_of form size) (slice from to s.now) }
{
    let len = to - from;
    match form {
        0 => { if len == size { 0 } else { WRONG } }
        1 => below_fault(&s[from..to], size),
        2 => text_fault(&s[from..to], size),
        3 => key_fault(s, prior, &s[from..to], size),
        4 => limit_fault(len, size),
        5 => list_fault(len, 8, size),
        6 => list_fault(len, 16, size),
        7 => set_fault(&s[from..to], size),
        8 => offset_fault(&s[from..to]),
        _ => WRONG,
    }
}

// What is wrong with a tag after another: tags ascend and pass no required one; a tag comes again only where its row repeats.
fn tag_fault(rows: &[u32], base: usize, last: usize, tag: usize) -> u8
    requires { (rows.now ≡ table) × IsBase base }
    ensures { result ≡ tag_fault (rows_from base) last tag }
{
    if tag == 0 {
        return WRONG;
    }
    if tag > size_in(row_at(rows, base)) {
        return WRONG;
    }
    let row = row_at(rows, base + tag);
    if last < tag {
        if prior_in(row) > last {
            return WRONG;
        }
        return 0;
    }
    if last == tag {
        if many_in(row) > 1 {
            return 0;
        }
    }
    WRONG
}

// What is wrong with a run's end after a tag: a required field is missing.
pub fn end_fault(rows: &[u32], base: usize, last: usize) -> u8
    requires { (rows.now ≡ table) × IsBase base }
    ensures { result ≡ end_fault (rows_from base) last }
{
    if prior_in(row_at(rows, base)) > last {
        return WRONG;
    }
    0
}

// An element that is one too many, after `count` of them.
fn count_fault(many: usize, count: usize) -> u8
    ensures { result ≡ count_fault (presence_of many) count }
{
    if many < 2 {
        return 0;
    }
    if count < many {
        return 0;
    }
    OVER_A_LIMIT
}

// Before any field.
fn begin() -> Walk
    ensures { result ≡ begun }
{
    Walk {
        last: 0,
        count: 0,
        prior: no_key(),
    }
}

// The key of the element before a field, if that has the same tag.
fn prior_of(w: Walk, tag: usize) -> Prior
    ensures { result ≡ prior_for w tag }
{
    if tag == w.last {
        let p = w.prior;
        return p;
    }
    no_key()
}

// How many elements of a field's tag came before it.
fn count_of(w: Walk, tag: usize) -> usize
    ensures { result ≡ count_for w tag }
{
    if tag == w.last {
        return w.count;
    }
    0
}

// The key that an element begins with.
fn key_of(s: &[u8], start: usize, len: usize) -> Prior
    requires { start + len ≤ length s.now }
    ensures { (prior_key s.now result ≡ key_of (slice start (start + len) s.now)) × PriorIn s.now result }
{
    let from = Cursor {
        at: start,
        to: start + len,
    };
    match field(s, from, 1) {
        Found::Part { start: at, len: n } => Prior {
            start: at,
            end: at + n,
        },
        Found::Missing => no_key(),
    }
}

// What came before the next field. Only where a row repeats can its element's key matter.
fn walk_past(
    rows: &[u32],
    s: &[u8],
    base: usize,
    w: Walk,
    tag: usize,
    start: usize,
    len: usize,
) -> Walk
    requires { (rows.now ≡ table) × (base + tag < row_count) × (start + len ≤ length s.now) × (w.count < 2 ^ 63) }
    ensures { (before_in s.now result ≡ passed (presence_at base tag) (before_in s.now w) tag (slice start (start + len) s.now)) × PriorIn s.now result.prior }
{
    let count = count_of(w, tag) + 1;
    if many_in(row_at(rows, base + tag)) > 1 {
        return Walk {
            last: tag,
            count,
            prior: key_of(s, start, len),
        };
    }
    Walk {
        last: tag,
        count,
        prior: no_key(),
    }
}

// What is wrong with a value. Within an element (`inner`) no value is a run, and `prior` is the key of the element before; elsewhere `before` is
// the key of the element before this one.
#[cycle(faults_field_fault_value_fault)]
fn value_fault(
    rows: &[u32],
    s: &[u8],
    row: u32,
    from: usize,
    to: usize,
    inner: bool,
    prior: Prior,
    before: Prior,
) -> u8
    requires { (rows.now ≡ table) × IsRow row × (from ≤ to) × (to ≤ length s.now) × PriorIn s.now prior × PriorIn s.now before }
    ensures { result ≡ check_at inner (prior_key s.now prior) (prior_key s.now before) (form_of (form_in row) (size_in row)) (slice from to s.now) }
{
    let form = form_in(row);
    let size = size_in(row);
    if inner {
        return leaf_fault(s, prior, form, size, from, to);
    }
    if form < NESTED {
        return leaf_fault(s, before, form, size, from, to);
    }
    faults(rows, s, size, Cursor { at: from, to }, true, before)
}

// What is wrong with a field: its tag, its value, then that it is one too many.
#[cycle(faults_field_fault_value_fault)]
fn field_fault(
    rows: &[u32],
    s: &[u8],
    base: usize,
    w: Walk,
    tag: usize,
    start: usize,
    len: usize,
    inner: bool,
    prior: Prior,
) -> u8
    requires { (rows.now ≡ table) × IsBase base × (start + len ≤ length s.now) × PriorIn s.now w.prior × PriorIn s.now prior }
    ensures { result ≡ field_fault (check_at inner (prior_key s.now prior)) (rows_from base) (before_in s.now w) tag (slice start (start + len) s.now) }
{
    let f = tag_fault(rows, base, w.last, tag);
    if f != 0 {
        return f;
    }
    let row = row_at(rows, base + tag);
    let g = value_fault(
        rows,
        s,
        row,
        start,
        start + len,
        inner,
        prior,
        prior_of(w, tag),
    );
    if g != 0 {
        return g;
    }
    count_fault(many_in(row), count_of(w, tag))
}

// The first fault of the fields from a cursor on, 0 for none.
#[cycle(faults_field_fault_value_fault)]
pub fn faults(rows: &[u32], s: &[u8], base: usize, from: Cursor, inner: bool, prior: Prior) -> u8
    requires { (rows.now ≡ table) × IsBase base × Inside s.now from × PriorIn s.now prior }
    ensures { result ≡ run_fault (check_at inner (prior_key s.now prior)) (rows_from base) nothing (fields_from s.now from) }
{
    let mut c = from;
    let mut w = begin();
    loop {
        match c.next(s) {
            Step::Field {
                tag,
                start,
                len,
                next,
            } => {
                let f = field_fault(rows, s, base, w, tag, start, len, inner, prior);
                if f != 0 {
                    return f;
                }
                w = walk_past(rows, s, base, w, tag, start, len);
                c = next;
            }
            Step::Torn => {
                return WRONG;
            }
            Step::End => {
                return end_fault(rows, base, w.last);
            }
        }
    }
}

// The first fault of the fields that three lists give: tags, lengths, and values back to back. A field whose length is missing or runs past the
// values is wrong, and so are lengths or values that are left over.
pub fn given_faults(rows: &[u32], base: usize, tags: &[u8], lengths: &[u16], values: &[u8]) -> u8
    requires { (rows.now ≡ table) × IsBase base }
    ensures { result ≡ run_fault (check_at false none) (rows_from base) nothing (gathered tags.now lengths.now values.now) }
{
    let mut w = begin();
    let mut i = 0;
    let mut start = 0;
    while i < tags.len() {
        if lengths.len() <= i {
            return WRONG;
        }
        let len = lengths[i] as usize;
        if values.len() - start < len {
            return WRONG;
        }
        let tag = wire::size(tags[i]);
        let f = field_fault(rows, values, base, w, tag, start, len, false, no_key());
        if f != 0 {
            return f;
        }
        w = walk_past(rows, values, base, w, tag, start, len);
        start += len;
        i += 1;
    }
    if i < lengths.len() {
        return WRONG;
    }
    if start < values.len() {
        return WRONG;
    }
    end_fault(rows, base, w.last)
}
