// A topic's stored partitions.
ghost use Rattle.std.specs.Prelude.{◌≡◌, ◌*◌, ◌≤◌, length};
ghost use Rattle.model.specs.Run.{value};
ghost use Rattle.model.specs.Contents.{record_key, of_topic, partitions};
ghost use Rattle.keys.specs.Keys.{run_in};
ghost use Rattle.entries.specs.Entries.{Entries, IsRecord, record_in};
ghost use Rattle.entries.specs.Held.{entries_in};

use entries::{Cursor, Step};
use keys::same_value;
use model::kinds::PARTITION;

// Whether an entry is a partition of the topic that a record's first field names. Partitions are of kind 2.
fn is_partition_of(e: &[u8], rec: &[u8]) -> bool
    requires { IsRecord e.now × (3 ≤ length rec.now) }
    ensures { result ≡ of_topic (value 1 (run_in rec.now)) (record_key (record_in e.now)) }
{
    if e[0] != PARTITION {
        return false;
    }
    same_value(e, rec, 1)
}

// How many partitions of that topic are stored.
pub fn partitions_of(s: &[u8], rec: &[u8]) -> u64
    requires { Entries s.now × (3 ≤ length rec.now) }
    ensures { (result ≡ partitions (value 1 (run_in rec.now)) (entries_in s.now)) × (3 * result ≤ length s.now) }
{
    let mut c = Cursor { at: 0 };
    let mut n: u64 = 0;
    loop {
        match c.next(s) {
            Step::Entry(start, end, next) => {
                c = next;
                if is_partition_of(&s[start..end], rec) {
                    n = n + 1;
                    continue;
                }
            }
            Step::Torn => {
                return n;
            }
            Step::End => {
                return n;
            }
        }
    }
}
