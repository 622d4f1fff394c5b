// Moves of topics and partitions on a work array.
#![tactic(auto)]

mod old;

ghost use Rattle.std.specs.Prelude.{◌≡◌, true, [], ◌∷◌, ◌+◌, ◌≤◌, length, take};
ghost use Rattle.model.specs.Number.{number};
ghost use Rattle.model.specs.Run.{value};
ghost use Rattle.model.specs.Record.{record_bytes};
ghost use Rattle.model.specs.Map.{get};
ghost use Rattle.model.specs.Contents.{topic, kept, key, record_key};
ghost use Rattle.model.specs.Move.{topic_m, part_m, delete_m, is_new, replicas, node_count};
ghost use Rattle.model.specs.declared.Kind.TheVariants.{Partition};
ghost use Rattle.laws.specs.Lists.{All};
ghost use Rattle.keys.specs.Keys.{kind_in, run_in};
ghost use Rattle.entries.specs.Entries.{Entries, IsRecord, record_in};
ghost use Rattle.find.specs.Logged.{IsLogged};
ghost use Rattle.entries.specs.Held.{entries_in};
ghost use Rattle.apply_patches.specs.Patches.{CountFits};
ghost use Rattle.apply_drafts.specs.Drafts.{draft_room};
ghost use Rattle.apply_work.specs.Work.{Good, held_in, most_record, Made};

use apply_drafts::{copy_in, set_field};
use apply_patches::{clear_named, count_partition};
use apply_work::{Bounds, drop_topic, put_real};
use entries::seek;
use keys::value_at;
use old::clear_old_named;

// Writes a topic's entry: its record with another count, and with its id's name. The entry's length.
fn topic_record(b: &mut [u8], rec: &[u8], count: u64) -> usize
    requires { IsLogged rec.now × (kind_in rec.now ≡ 1) × (draft_room ≤ length b.old) }
    ensures { (take result b.new ≡ record_bytes (kept (topic (value 1 (run_in rec.now)) (value 2 (run_in rec.now)) count (number (value 4 (run_in rec.now))) true))) × (result ≤ length b.old) }
{
    let mut v = [0; 4];
    wire::put(&mut v, 0, 4, count);
    let n = copy_in(b, rec);
    let m = set_field(b, n, 3, &v);
    set_field(b, m, 5, b"\x00\x00\x00\x00\x01")
}

// A topic's name, id and replication factor. The stored count stays; the id names this topic and no other, and the topic's old id names none.
pub fn put_topic(w: &mut [u8], b: &mut [u8], bounds: Bounds, rec: &[u8]) -> Bounds
    requires { Good w.old bounds × IsLogged rec.now × (kind_in rec.now ≡ 1) × (bounds.used + most_record ≤ length w.old) × (draft_room ≤ length b.old) }
    ensures { Made (topic_m (value 1 (run_in rec.now)) (value 2 (run_in rec.now)) (number (value 4 (run_in rec.now))) ∷ []) w.old bounds w.new result }
{
    let count = clear_old_named(w, bounds, rec);
    let p = value_at(rec, 2);
    let start = p.start;
    let end = p.end;
    clear_named(w, bounds, &rec[start..end]);
    let n = topic_record(b, rec, count);
    put_real(w, bounds, &b[..n])
}

// 1 where a partition is not stored yet, else 0.
fn is_new(s: &[u8], rec: &[u8]) -> u64
    requires { Entries s.now × IsRecord rec.now }
    ensures { (result ≡ is_new (get key (record_key (record_in rec.now)) (entries_in s.now))) × (result ≤ 1) }
{
    let p = seek(s, rec);
    if p.at < p.end {
        return 0;
    }
    1
}

// How many replicas a partition has.
fn replica_count(rec: &[u8]) -> u64
    requires { IsRecord rec.now }
    ensures { result ≡ node_count (replicas (record_in rec.now).run) }
{
    let p = value_at(rec, 4);
    ((p.end - p.start) / 8) as u64
}

// A partition's fields. Its topic counts it where it is new, and takes its replicas' number as the replication factor.
pub fn put_partition(w: &mut [u8], bounds: Bounds, rec: &[u8]) -> Bounds
    requires { Good w.old bounds × IsRecord rec.now × ((record_in rec.now).kind ≡ Partition) × All CountFits (held_in w.old bounds) × (bounds.used + most_record ≤ length w.old) }
    ensures { Made (part_m (record_in rec.now).run ∷ []) w.old bounds w.new result }
{
    let mid = bounds.mid;
    let new = is_new(&w[..mid], rec);
    let p = value_at(rec, 1);
    let start = p.start;
    let end = p.end;
    let replicas = replica_count(rec);
    count_partition(w, bounds, &rec[start..end], new, replicas);
    put_real(w, bounds, rec)
}

// A topic's end: its old id names no topic, and all that stands under its name is taken out.
pub fn delete_topic(w: &mut [u8], bounds: Bounds, rec: &[u8]) -> Bounds
    requires { Good w.old bounds × (3 ≤ length rec.now) × (length (value 1 (run_in rec.now)) ≤ 255) }
    ensures { Made (delete_m (value 1 (run_in rec.now)) ∷ []) w.old bounds w.new result }
{
    clear_old_named(w, bounds, rec);
    let p = value_at(rec, 1);
    let start = p.start;
    let end = p.end;
    drop_topic(w, bounds, &rec[start..end])
}
