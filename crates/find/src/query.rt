// Probes: as much of a record as a key needs, to seek an entry by what a query names.
ghost use Rattle.std.specs.Prelude.{◌≡◌, ◌+◌, ◌≤◌, length, take};
ghost use Rattle.find.specs.Probe.{probe_bytes, probe_size};

use records::{put_field, put_head};

// Writes a record of a kind with two fields, of tags 1 and 2, at the start of `p`. How long it is.
pub fn probe(p: &mut [u8], kind: u8, first: &[u8], second: &[u8]) -> usize
    requires { probe_size first.now second.now ≤ length p.old }
    ensures { (result ≡ probe_size first.now second.now) × (take result p.new ≡ probe_bytes kind first.now second.now) }
{
    let middle = 6 + first.len();
    let size = middle + 3 + second.len();
    put_head(p, 0, kind, size - 3);
    put_field(p, 3, 1, first);
    put_field(p, middle, 2, second);
    size
}
