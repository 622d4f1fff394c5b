// Snapshots from before the log offset: the old form in the new one, and back. Records are read, not applied.
#![tactic(auto)]

ghost use Rattle.std.specs.Prelude.{◌≡◌, ◌++◌, ◌≤◌, length, drop};
ghost use Rattle.model.specs.Shape.{framed};
ghost use Rattle.model.specs.Record.{record_bytes};
ghost use Rattle.model.specs.Items.{items_from, items_of};
ghost use Rattle.model.specs.Reply.{emit_bytes};
ghost use Rattle.model.specs.Snapshot.{offset_rec, offset_size};
ghost use Rattle.model.specs.Convert.{passes, run_checked, start_checked, start_offset, beside, with_offset_of, without_offset_of};
ghost use Rattle.model.specs.Answers.{run_reply, separate_reply};
ghost use Rattle.shapes.specs.Table.{table};
ghost use Rattle.records.specs.Answers.{source_of};
ghost use Rattle.convert.specs.Convert.{check_of};

use model::answers::{Answer, RunAnswer, Separated};
use model::kinds::LOG_OFFSET;
use model::refusals::{MISPLACED_OFFSET, OFFSET_TOO_LOW, TOO_SHORT};
use records::{Source, put_number, read_from};
use shapes::all_rows;
use wire::is_offset;

// How long the log offset's record is, with which the new form starts, and where in it the offset stands.
const OFFSET_SIZE: usize = 14;

const OFFSET_AT: usize = 6;

// Records that are all right, or the refusal of the first that is not, with its place.
#[derive(Clone, Copy)]
enum Check {
    Passes,
    Fails(u8, usize),
}

// Reads the records from a place on. The log offset is not to be among them: 22, or Read's 3 where the log offset is no kind.
fn check_run(rows: &[u32], run: &[u8], start: usize, source: Source) -> Check
    requires { (rows.now ≡ table) × (start ≤ length run.now) }
    ensures { check_of result ≡ run_checked (items_from (source_of source) 0 start (drop start run.now)) }
{
    let mut at = start;
    while at < run.len() {
        match read_from(rows, &run[at..], source) {
            Answer::Refused(number) => {
                return Check::Fails(number, at);
            }
            Answer::Used(n) => {
                if run[at] == LOG_OFFSET {
                    return Check::Fails(MISPLACED_OFFSET, at);
                }
                at = at + n;
            }
        }
    }
    Check::Passes
}

// Reads the records of the new form: the log offset, and others behind it.
fn check_new(rows: &[u32], run: &[u8]) -> Check
    requires { rows.now ≡ table }
    ensures { check_of result ≡ start_checked (items_of framed run.now) }
{
    if run.len() == 0 {
        return Check::Fails(MISPLACED_OFFSET, 0);
    }
    match read_from(rows, run, Source::Framed) {
        Answer::Refused(number) => Check::Fails(number, 0),
        Answer::Used(n) => {
            if run[0] != LOG_OFFSET {
                return Check::Fails(MISPLACED_OFFSET, 0);
            }
            check_run(rows, run, n, Source::Framed)
        }
    }
}

// Writes the log offset's record and then a run: the bytes written, or 19.
fn put_new(run: &[u8], offset: u64, out: &mut [u8]) -> RunAnswer
    ensures result_value { run_reply result ≡ (emit_bytes (record_bytes (offset_rec offset) ++ run.now) out.old).reply }
    ensures out_after { out.new ≡ (emit_bytes (record_bytes (offset_rec offset) ++ run.now) out.old).buffer }
{
    if out.len() < OFFSET_SIZE {
        return RunAnswer::Refused(TOO_SHORT);
    }
    if out.len() - OFFSET_SIZE < run.len() {
        return RunAnswer::Refused(TOO_SHORT);
    }
    put_number(out, 0, LOG_OFFSET, 8, offset);
    wire::copy(out, OFFSET_SIZE, run);
    RunAnswer::Written(OFFSET_SIZE + run.len())
}

// Writes what stands behind the log offset's record: the bytes written and the offset, or 19.
fn put_old(run: &[u8], out: &mut [u8]) -> Separated
    requires { start_checked (items_of framed run.now) ≡ passes }
    ensures result_value { separate_reply result ≡ (beside (start_offset (items_of framed run.now)) (emit_bytes (drop offset_size run.now) out.old)).reply }
    ensures out_after { out.new ≡ (beside (start_offset (items_of framed run.now)) (emit_bytes (drop offset_size run.now) out.old)).buffer }
{
    let len = run.len() - OFFSET_SIZE;
    if out.len() < len {
        return Separated::Refused(TOO_SHORT);
    }
    wire::copy(out, 0, &run[OFFSET_SIZE..]);
    Separated::Written(len, wire::get(run, OFFSET_AT, 8))
}

// The new form of a run of the old one, at a log offset: the offset's record, and then the run's bytes unchanged. The bytes written.
pub fn with_offset(run: &[u8], offset: u64, out: &mut [u8]) -> RunAnswer
    ensures result_value { run_reply result ≡ (with_offset_of run.now offset out.old).reply }
    ensures out_after { out.new ≡ (with_offset_of run.now offset out.old).buffer }
{
    if !is_offset(offset) {
        return RunAnswer::Refused(OFFSET_TOO_LOW);
    }
    let rows = all_rows();
    match check_run(&rows, run, 0, Source::Logged) {
        Check::Fails(number, at) => RunAnswer::Stopped(number, at),
        Check::Passes => put_new(run, offset, out),
    }
}

// The old form of a run of the new one: the bytes written, and the log offset beside them.
pub fn without_offset(run: &[u8], out: &mut [u8]) -> Separated
    ensures result_value { separate_reply result ≡ (without_offset_of run.now out.old).reply }
    ensures out_after { out.new ≡ (without_offset_of run.now out.old).buffer }
{
    let rows = all_rows();
    match check_new(&rows, run) {
        Check::Fails(number, at) => Separated::Stopped(number, at),
        Check::Passes => put_old(run, out),
    }
}
