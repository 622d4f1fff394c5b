// The freeze of a name from a run of encoded records: one pass forward over the records, and no image. A later freeze record of a pattern and scope
// takes the place of an earlier one, which is to look back for the last.
#![tactic(auto)]

ghost use Rattle.std.specs.Prelude.{◌≡◌, ◌+◌, ◌≤◌, ◌<◌, length, replicate};
ghost use Rattle.model.specs.Run.{value};
ghost use Rattle.model.specs.Reply.{emit_bytes};
ghost use Rattle.model.specs.Snapshot.{emit};
ghost use Rattle.model.specs.Lookup.{as_list};
ghost use Rattle.model.specs.LogFreeze.{log_freeze_of};
ghost use Rattle.model.specs.Answers.{replied, run_reply};
ghost use Rattle.shapes.specs.Table.{table};
ghost use Rattle.keys.specs.Keys.{kind_in, run_in};
ghost use Rattle.log_freeze.specs.Slots.{slot_count, pattern_slot, slot_of, slot_value, noted, frozen_at, Holds, longest_slot, chosen_slot, ReadAs, Noted, PassAs, written};

use keys::{number_at, value_at};
use lookup_freezes::is_internal;
use model::answers::{Answer, RunAnswer};
use model::kinds::{LOG_OFFSET, TOPIC_FREEZE};
use model::refusals::{MISPLACED_OFFSET, TOO_SHORT};
use records::{Source, read_from, text_fault};
use shapes::all_rows;
use wire::{begins_with, get16};

// The most bytes of a name.
const NAME_LIMIT: usize = 255;

// The freezes that a name can have, each in a slot: of each of its prefixes, by the prefix's length, and of itself as a literal scope. A slot holds
// the place of the record in force and 1 more, or 0 where there is none.
const LITERAL: usize = 256;

const NO_SLOT: usize = 257;

// The slot of a scope that the name begins with, by its pattern.
fn pattern_slot(pattern: &[u8], scope: usize, name: usize) -> usize
    ensures { result ≡ pattern_slot pattern.now scope name }
{
    if wire::same(pattern, b"\x01") {
        return scope;
    }
    if !wire::same(pattern, b"\x00") {
        return NO_SLOT;
    }
    if scope == name {
        return LITERAL;
    }
    NO_SLOT
}

// The slot of a freeze record.
fn slot_of(e: &[u8], name: &[u8]) -> usize
    requires { 3 ≤ length e.now }
    ensures { result ≡ slot_of (run_in e.now) name.now }
{
    let s = value_at(e, 1);
    let start = s.start;
    let end = s.end;
    if !begins_with(name, &e[start..end]) {
        return NO_SLOT;
    }
    let p = value_at(e, 2);
    let from = p.start;
    let to = p.end;
    pattern_slot(&e[from..to], end - start, name.len())
}

// What a slot holds after a freeze record at a place: a thaw leaves nothing in force.
fn slot_value(e: &[u8], at: usize) -> usize
    requires { (3 ≤ length e.now) × (length (value 3 (run_in e.now)) ≡ 1) × (at < 18446744073709551615) }
    ensures { result ≡ slot_value (run_in e.now) at }
{
    if number_at(e, 3, 1) == 1 {
        return at + 1;
    }
    0
}

// Notes the record at a place, where it is a freeze that the name can have.
fn note(slots: &mut [usize], name: &[u8], e: &[u8], at: usize)
    requires { (3 ≤ length e.now) × (kind_in e.now ≡ 18 → length (value 3 (run_in e.now)) ≡ 1) × (at < 18446744073709551615) }
    ensures { slots.new ≡ noted slots.old name.now e.now at }
{
    if e[0] != TOPIC_FREEZE {
        return;
    }
    let i = slot_of(e, name);
    if i < slots.len() {
        slots[i] = slot_value(e, at);
    }
}

// Reads the record at a place of a run: 22 for a log offset behind the first record.
fn read_at(rows: &[u32], run: &[u8], at: usize) -> Answer
    requires { (rows.now ≡ table) × (at < length run.now) }
    ensures { ReadAs run.now at result }
{
    match read_from(rows, &run[at..], Source::Framed) {
        Answer::Refused(number) => Answer::Refused(number),
        Answer::Used(n) => {
            if run[at] != LOG_OFFSET {
                return Answer::Used(n);
            }
            if at != 0 {
                return Answer::Refused(MISPLACED_OFFSET);
            }
            Answer::Used(n)
        }
    }
}

// What a pass over a run comes to: all its records are noted, or the number and the place of the first at fault.
#[derive(Clone, Copy)]
enum Pass {
    Done,
    Stopped(u8, usize),
}

// Notes the records of a run in slots that hold nothing.
fn note_all(slots: &mut [usize], run: &[u8], name: &[u8]) -> Pass
    requires { (slots.old ≡ replicate slot_count 0) × (length name.now ≤ 255) }
    ensures { PassAs run.now name.now slots.new result }
{
    let rows = all_rows();
    let mut at = 0;
    while at < run.len() {
        match read_at(&rows, run, at) {
            Answer::Refused(number) => {
                return Pass::Stopped(number, at);
            }
            Answer::Used(n) => {
                let end = at + n;
                note(slots, name, &run[at..end], at);
                at = end;
            }
        }
    }
    Pass::Done
}

// What the slots of the prefixes of at most `n` bytes hold: of the longest that holds something.
fn longest(slots: &[usize], n: usize) -> usize
    requires { (length slots.now ≡ slot_count) × (n ≤ 255) }
    ensures { result ≡ longest_slot slots.now (n + 1) }
{
    let mut i = n + 1;
    while 0 < i {
        i -= 1;
        let v = slots[i];
        if v != 0 {
            return v;
        }
    }
    0
}

// What the slots hold of a name of `n` bytes: the literal scope before every prefix.
fn choose(slots: &[usize], n: usize) -> usize
    requires { (length slots.now ≡ slot_count) × (n ≤ 255) }
    ensures { result ≡ chosen_slot slots.now n }
{
    let v = slots[LITERAL];
    if v != 0 {
        return v;
    }
    longest(slots, n)
}

// Writes some bytes to the start of an output. How many, or 19 and nothing is written.
fn emit_bytes(s: &[u8], out: &mut [u8]) -> Answer
    ensures result_value { replied result ≡ (emit_bytes s.now out.old).reply }
    ensures out_after { out.new ≡ (emit_bytes s.now out.old).buffer }
{
    if out.len() < s.len() {
        return Answer::Refused(TOO_SHORT);
    }
    wire::copy(out, 0, s);
    Answer::Used(s.len())
}

// Writes the record at a place of a run to the start of an output.
fn emit_record(run: &[u8], at: usize, out: &mut [u8]) -> Answer
    requires { Holds run.now (at + 1) }
    ensures result_value { replied result ≡ (emit (as_list (frozen_at run.now (at + 1))) out.old).reply }
    ensures out_after { out.new ≡ (emit (as_list (frozen_at run.now (at + 1))) out.old).buffer }
{
    let end = at + 3 + get16(run, at + 1);
    emit_bytes(&run[at..end], out)
}

// Writes the freeze that a name has by the slots.
fn emit_noted(slots: &[usize], run: &[u8], name: &[u8], out: &mut [u8]) -> Answer
    requires { Noted run.now name.now slots.now × (length slots.now ≡ slot_count) × (length name.now ≤ 255) }
    ensures result_value { replied result ≡ (written run.now name.now out.old).reply }
    ensures out_after { out.new ≡ (written run.now name.now out.old).buffer }
{
    if is_internal(name) {
        return Answer::Used(0);
    }
    let v = choose(slots, name.len());
    if v == 0 {
        return Answer::Used(0);
    }
    emit_record(run, v - 1, out)
}

// The freeze of a name, as the image that the run's records make has it: the bytes written, none where there is none.
pub fn log_freeze(run: &[u8], name: &[u8], out: &mut [u8]) -> RunAnswer
    ensures result_value { run_reply result ≡ (log_freeze_of run.now name.now out.old).reply }
    ensures out_after { out.new ≡ (log_freeze_of run.now name.now out.old).buffer }
{
    let f = text_fault(name, NAME_LIMIT);
    if f != 0 {
        return RunAnswer::Refused(f);
    }
    let mut slots = [0; 257];
    match note_all(&mut slots, run, name) {
        Pass::Stopped(number, at) => RunAnswer::Stopped(number, at),
        Pass::Done => match emit_noted(&slots, run, name, out) {
            Answer::Used(n) => RunAnswer::Written(n),
            Answer::Refused(number) => RunAnswer::Refused(number),
        },
    }
}
