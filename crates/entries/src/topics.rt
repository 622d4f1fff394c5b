// The entries under a topic: its own, those of its partitions, of their offsets, ELR and recovery, and its configs.
ghost use Rattle.std.specs.Prelude.{◌≡◌, ◌≤◌, length};
ghost use Rattle.std.proofs.Math.Seq.{slice};
ghost use Rattle.model.specs.Map.{keep};
ghost use Rattle.model.specs.Contents.{record_key};
ghost use Rattle.model.specs.Move.{apart_from};
ghost use Rattle.keys.specs.Keys.{key_in, Keyed};
ghost use Rattle.entries.specs.Entries.{records_in, Entries, Changed};

use crate::{Cursor, Step, splice};
use keys::{rank_of, value_at};

// Whether an entry does not stand under the topic of a name. The groups under topics have the ranks from 4 to 9.
fn is_apart(s: &[u8], name: &[u8]) -> bool
    requires { Keyed s.now }
    ensures { result ≡ apart_from name.now (key_in s.now) }
{
    let rank = rank_of(s[0]);
    if rank < 4 {
        return true;
    }
    if 9 < rank {
        return true;
    }
    let p = value_at(s, 1);
    let start = p.start;
    let end = p.end;
    !wire::same(&s[start..end], name)
}

// Takes the entries under a topic out of the entries from `from` to `to` of the used bytes. How many are used then.
pub fn remove_topic(w: &mut [u8], from: usize, to: usize, used: usize, name: &[u8]) -> usize
    requires { (from ≤ to) × (to ≤ used) × (used ≤ length w.old) × Entries (slice from to w.old) }
    ensures { Changed w.old w.new from to used result (keep record_key (apart_from name.now) (records_in (slice from to w.old))) × (result ≤ used) }
{
    let mut c = Cursor { at: from };
    let mut top = from;
    loop {
        match c.next(&w[..to]) {
            Step::Entry(start, end, next) => {
                c = next;
                if is_apart(&w[start..end], name) {
                    let n = end - start;
                    wire::shift(w, start, top, n);
                    top = top + n;
                    continue;
                }
            }
            Step::Torn => {
                return splice(w, used, top, to, &name[..0]);
            }
            Step::End => {
                return splice(w, used, top, to, &name[..0]);
            }
        }
    }
}
