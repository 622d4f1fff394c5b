// The records of an image's snapshot, and whether two snapshots are the same.
ghost use Rattle.std.specs.Prelude.{◌≡◌, ◌≤◌, ◌<◌, length, take};
ghost use Rattle.model.specs.Order.{same_bytes};
ghost use Rattle.model.specs.Snapshot.{snapshot_of};
ghost use Rattle.model.specs.History.{written};

use crate::differences::say_differences;
use model::answers::Answer;
use std::io::Stdout;

// Takes a snapshot. How many bytes it has, 0 where it is refused.
pub fn take_snapshot(image: &[u8], out: &mut [u8]) -> usize
    ensures { (result ≤ length out.new) × (take result out.new ≡ written (snapshot_of image.now out.old)) }
{
    match snapshot::snapshot(image, out) {
        Answer::Used(n) => n,
        Answer::Refused(number) => 0,
    }
}

// One more; no snapshot has as many records as would not fit.
pub fn more_by_one(n: u64) -> u64 {
    if n < 65536 {
        return n + 1;
    }
    n
}

// Where the record at a place ends: at the end of all where it does not read.
pub fn end_of(records: &[u8], at: usize) -> usize
    requires { at < length records.now }
    ensures { (at < result) × (result ≤ length records.now) }
{
    match records::read(&records[at..]) {
        Answer::Used(n) => {
            if n == 0 {
                return records.len();
            }
            if records.len() - at < n {
                return records.len();
            }
            at + n
        }
        Answer::Refused(number) => records.len(),
    }
}

// Whether two snapshots are the same, and whether what was said of it was written.
#[derive(Clone, Copy)]
pub struct Compared {
    pub same: bool,
    pub written: bool,
}

// Whether two snapshots have the same records; where not, says every difference.
fn same_records(stdout: Stdout, records: &[u8], other: &[u8]) -> Compared
    ensures { result.same ≡ same_bytes records.now other.now }
{
    let same = wire::same(records, other);
    if same {
        return Compared {
            same,
            written: true,
        };
    }
    Compared {
        same,
        written: say_differences(stdout, records, other),
    }
}

// Whether two images have the same snapshot; where not, says every difference.
pub fn same_snapshots(
    stdout: Stdout,
    plain: &[u8],
    other: &[u8],
    out: &mut [u8],
    more: &mut [u8],
) -> Compared
    ensures { result.same ≡ same_bytes (written (snapshot_of plain.now out.old)) (written (snapshot_of other.now more.old)) }
{
    let n = take_snapshot(plain, out);
    let m = take_snapshot(other, more);
    same_records(stdout, &out[..n], &more[..m])
}
