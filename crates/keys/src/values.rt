// Two records' values of a tag, and a signed number's place.
ghost use Rattle.std.specs.Prelude.{◌≡◌, ◌≤◌, ◌<◌, length};
ghost use Rattle.model.specs.Number.{number, half, place};
ghost use Rattle.model.specs.Order.{same_bytes};
ghost use Rattle.model.specs.Run.{value};
ghost use Rattle.keys.specs.Keys.{run_in};

use crate::{number_at, value_at};

// Whether two records have the same value of a tag.
pub fn same_value(a: &[u8], b: &[u8], tag: usize) -> bool
    requires { (3 ≤ length a.now) × (3 ≤ length b.now) }
    ensures { result ≡ same_bytes (value tag (run_in a.now)) (value tag (run_in b.now)) }
{
    let p = value_at(a, tag);
    let q = value_at(b, tag);
    let ps = p.start;
    let pe = p.end;
    let qs = q.start;
    let qe = q.end;
    wire::same(&a[ps..pe], &b[qs..qe])
}

// How many of a width's signed numbers are negative.
fn half_of(width: usize) -> u64
    requires { (0 < width) × (width ≤ 8) }
    ensures { result ≡ half width }
{
    let mut h: u64 = 128;
    let mut i: usize = 1;
    while i < width {
        h = h * 256;
        i += 1;
    }
    h
}

// The place of a field's signed number among those of its width.
pub fn place_in(e: &[u8], tag: usize, width: usize) -> u64
    requires { (3 ≤ length e.now) × (0 < width) × (width ≤ 8) × (length (value tag (run_in e.now)) ≡ width) }
    ensures { result ≡ place width (number (value tag (run_in e.now))) }
{
    let n = number_at(e, tag, width);
    let half = half_of(width);
    if n < half {
        return n + half;
    }
    n - half
}
