// A broker's record that is changed a field at a time, at the start of a buffer.
ghost use Rattle.std.specs.Prelude.{take};
ghost use Rattle.model.specs.Run.{set_field};
ghost use Rattle.model.specs.Move.{changed_broker};
ghost use Rattle.keys.specs.Keys.{run_in};
ghost use Rattle.entries.specs.Entries.{record_in};
ghost use Rattle.apply_brokers.specs.Change.{IsChange, BrokerIn, Suits, fenced_by, shut_by, with_dirs, with_cordoned};

use apply_drafts::set_field;
use image_entries::{has, value_number};
use keys::value_at;

// Sets a field of the broker. Its length then.
fn replace(b: &mut [u8], n: usize, tag: u8, v: &[u8]) -> usize
    requires { BrokerIn b.old n (run_in (take n b.old)) × Suits tag v.now }
    ensures { BrokerIn b.new result (set_field tag v.now (run_in (take n b.old))) }
{
    set_field(b, n, tag, v)
}

// Fenced or not: 0 unfences the broker, 1 leaves it as it is, 2 fences it.
fn fence(b: &mut [u8], n: usize, rec: &[u8]) -> usize
    requires { BrokerIn b.old n (run_in (take n b.old)) × IsChange rec.now }
    ensures { BrokerIn b.new result (fenced_by (record_in rec.now).run (run_in (take n b.old))) }
{
    let fencing = value_number(rec, 3, 1);
    if fencing == 0 {
        return replace(b, n, 9, b"\x00");
    }
    if fencing == 1 {
        return n;
    }
    replace(b, n, 9, b"\x01")
}

// In controlled shutdown, where the broker was or the change says so.
fn shut(b: &mut [u8], n: usize, rec: &[u8]) -> usize
    requires { BrokerIn b.old n (run_in (take n b.old)) × IsChange rec.now }
    ensures { BrokerIn b.new result (shut_by (record_in rec.now).run (run_in (take n b.old))) }
{
    if value_number(rec, 4, 1) == 1 {
        return replace(b, n, 10, b"\x01");
    }
    n
}

// The log directories, where the change has any.
fn set_dirs(b: &mut [u8], n: usize, rec: &[u8]) -> usize
    requires { BrokerIn b.old n (run_in (take n b.old)) × IsChange rec.now }
    ensures { BrokerIn b.new result (with_dirs (record_in rec.now).run (run_in (take n b.old))) }
{
    let p = value_at(rec, 5);
    let start = p.start;
    let end = p.end;
    if start == end {
        return n;
    }
    replace(b, n, 8, &rec[start..end])
}

// The cordoned directories, where the change has the field, also with none.
fn set_cordoned(b: &mut [u8], n: usize, rec: &[u8]) -> usize
    requires { BrokerIn b.old n (run_in (take n b.old)) × IsChange rec.now }
    ensures { BrokerIn b.new result (with_cordoned (record_in rec.now).run (run_in (take n b.old))) }
{
    if !has(rec, 6) {
        return n;
    }
    let p = value_at(rec, 6);
    let start = p.start;
    let end = p.end;
    replace(b, n, 11, &rec[start..end])
}

// The broker after a change. Its length then.
pub fn change(b: &mut [u8], n: usize, rec: &[u8]) -> usize
    requires { BrokerIn b.old n (run_in (take n b.old)) × IsChange rec.now }
    ensures { BrokerIn b.new result (changed_broker (record_in rec.now).run (run_in (take n b.old))) }
{
    let fenced = fence(b, n, rec);
    let down = shut(b, fenced, rec);
    let size = set_dirs(b, down, rec);
    set_cordoned(b, size, rec)
}
