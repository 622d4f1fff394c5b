// What is wrong with a record's fields, quickly where nothing is: most records have one field for each row of their shape, in order, and none is a run.
#![tactic(auto)]

ghost use Rattle.std.specs.Prelude.{◌≡◌, true, false, ◌-◌, ◌/◌, ◌%◌, ◌≤◌, ◌<◌, length, leb};
ghost use Rattle.std.proofs.Math.Option.{none};
ghost use Rattle.std.proofs.Math.Seq.{slice};
ghost use Rattle.model.specs.Text.{is_text};
ghost use Rattle.model.specs.Nodes.{nodes_of, no_repeats};
ghost use Rattle.model.specs.Shape.{start as nothing, value_fault, run_fault};
ghost use Rattle.shapes.specs.Table.{table, form_in, size_in, form_of, rows_from};
ghost use Rattle.fields.specs.Fields.{fields_from, Inside};
ghost use Rattle.shape_faults.specs.Walk.{IsBase, check_at};

use fields::{Cursor, Step};
use shape_faults::{end_fault, faults, leaf_fault, no_key};
use shapes::{form_in, many_in, row_at, size_in};

// Forms: a fixed width, a string, lists of nodes and of ids, nodes without a repeat, and a run of a shape's fields.
const FIXED: u32 = 0;

const TEXT: u32 = 2;

const NODES: u32 = 5;

const IDS: u32 = 6;

const SET: u32 = 7;

const NESTED: u32 = 9;

// Whether so many bytes are whole numbers of a width, and no more of them than a limit.
fn is_list(len: usize, width: usize, limit: usize) -> bool
    requires { 0 < width }
    ensures { result ≡ true → (len % width ≡ 0) × (leb (len / width) limit ≡ true) }
{
    if len % width != 0 {
        return false;
    }
    len / width <= limit
}

// Whether a value is a string of no more bytes than a limit.
fn is_string(s: &[u8], from: usize, to: usize, limit: usize) -> bool
    requires { (from ≤ to) × (to ≤ length s.now) }
    ensures { result ≡ true → (leb (to - from) limit ≡ true) × (is_text (slice from to s.now) ≡ true) }
{
    if limit < to - from {
        return false;
    }
    wire::is_text(&s[from..to])
}

// Whether a value is a list of no more nodes than a limit, none of which comes twice.
fn is_set(s: &[u8], from: usize, to: usize, limit: usize) -> bool
    requires { (from ≤ to) × (to ≤ length s.now) }
    ensures { result ≡ true → ((to - from) % 8 ≡ 0) × (leb ((to - from) / 8) limit ≡ true) × (no_repeats (nodes_of (slice from to s.now)) ≡ true) }
{
    if !is_list(to - from, 8, limit) {
        return false;
    }
    nodes::apart_in(&s[from..to])
}

// Whether a value of a row is no run, and nothing is wrong with it. The usual forms are looked at in place.
fn is_right(s: &[u8], row: u32, from: usize, to: usize) -> bool
    requires { (from ≤ to) × (to ≤ length s.now) }
    ensures { result ≡ true → value_fault none (form_of (form_in row) (size_in row)) (slice from to s.now) ≡ 0 }
{
    let form = form_in(row);
    let size = size_in(row);
    if form == FIXED {
        return to - from == size;
    }
    if form == TEXT {
        return is_string(s, from, to, size);
    }
    if form == NODES {
        return is_list(to - from, 8, size);
    }
    if form == IDS {
        return is_list(to - from, 16, size);
    }
    if form == SET {
        return is_set(s, from, to, size);
    }
    if NESTED <= form {
        return false;
    }
    leaf_fault(s, no_key(), form, size, from, to) == 0
}

// Whether the fields from a cursor on are one for each row of a shape, in order, but for optional ones that are missing at the end; none is a run, and
// nothing is wrong with them.
fn is_flat(rows: &[u32], s: &[u8], base: usize, from: Cursor) -> bool
    requires { (rows.now ≡ table) × IsBase base × Inside s.now from }
    ensures { result ≡ true → run_fault (check_at false none) (rows_from base) nothing (fields_from s.now from) ≡ 0 }
{
    let fields = size_in(row_at(rows, base));
    let mut c = from;
    let mut last = 0;
    loop {
        match c.next(s) {
            Step::Field {
                tag,
                start,
                len,
                next,
            } => {
                let end = start + len;
                if tag != last + 1 {
                    return false;
                }
                if fields < tag {
                    return false;
                }
                let row = row_at(rows, base + tag);
                if 1 < many_in(row) {
                    return false;
                }
                if !is_right(s, row, start, end) {
                    return false;
                }
                last = tag;
                c = next;
            }
            Step::Torn => {
                return false;
            }
            Step::End => {
                return end_fault(rows, base, last) == 0;
            }
        }
    }
}

// The first fault of a record's fields, 0 for none.
pub fn record_faults(rows: &[u32], s: &[u8], base: usize, from: Cursor) -> u8
    requires { (rows.now ≡ table) × IsBase base × Inside s.now from }
    ensures { result ≡ run_fault (check_at false none) (rows_from base) nothing (fields_from s.now from) }
{
    if is_flat(rows, s, base, from) {
        return 0;
    }
    faults(rows, s, base, from, false, no_key())
}
