// The stored topic of a name, before a move changes it.
ghost use Rattle.std.specs.Prelude.{◌≡◌, map, ◌≤◌, length};
ghost use Rattle.model.specs.Run.{value};
ghost use Rattle.model.specs.Key.{topic_key};
ghost use Rattle.model.specs.Map.{get};
ghost use Rattle.model.specs.Contents.{key};
ghost use Rattle.model.specs.Move.{clear_old_named, count_of};
ghost use Rattle.keys.specs.Keys.{run_in};
ghost use Rattle.entries.specs.Entries.{Entries};
ghost use Rattle.entries.specs.Held.{entries_in};
ghost use Rattle.apply_work.specs.Work.{groups_in, Good, held_in};
ghost use Rattle.apply_topics.specs.Old.{OldIs};

use apply_patches::clear_named;
use apply_work::Bounds;
use find::find;
use image_entries::value_number;
use keys::value_at;
use model::kinds::TOPIC;

// Its count, 0 where there is none, and whether there is one.
#[derive(Clone, Copy)]
pub struct Old {
    pub count: u64,
    pub there: bool,
}

// Copies the value of a field to a buffer of its length.
fn copy_value(v: &mut [u8], e: &[u8], tag: usize)
    requires { (3 ≤ length e.now) × (length (value tag (run_in e.now)) ≡ length v.old) }
    ensures { v.new ≡ value tag (run_in e.now) }
{
    let p = value_at(e, tag);
    let start = p.start;
    let end = p.end;
    wire::copy(v, 0, &e[start..end]);
}

// The stored topic of a name. Its id is copied.
fn old_topic(s: &[u8], name: &[u8], id: &mut [u8]) -> Old
    requires { Entries s.now × (length name.now ≤ 255) × (length id.old ≡ 16) }
    ensures { OldIs (get key (topic_key name.now) (entries_in s.now)) result id.new }
{
    let p = find(s, TOPIC, name, b"");
    let at = p.at;
    let end = p.end;
    if end <= at {
        return Old {
            count: 0,
            there: false,
        };
    }
    copy_value(id, &s[at..end], 2);
    Old {
        count: value_number(&s[at..end], 3, 4),
        there: true,
    }
}

// The id of the stored topic that a record's first field names is not its name any more. The topic's count, 0 where there is none.
pub fn clear_old_named(w: &mut [u8], bounds: Bounds, rec: &[u8]) -> u64
    requires { Good w.old bounds × (3 ≤ length rec.now) × (length (value 1 (run_in rec.now)) ≤ 255) }
    ensures { Good w.new bounds × (held_in w.new bounds ≡ map (clear_old_named (get key (topic_key (value 1 (run_in rec.now))) (held_in w.old bounds))) (held_in w.old bounds)) × (groups_in w.new bounds ≡ groups_in w.old bounds) × (result ≡ count_of (get key (topic_key (value 1 (run_in rec.now))) (held_in w.old bounds))) }
{
    let mut id = [0; 16];
    let mid = bounds.mid;
    let p = value_at(rec, 1);
    let start = p.start;
    let end = p.end;
    let old = old_topic(&w[..mid], &rec[start..end], &mut id);
    if old.there {
        clear_named(w, bounds, &id);
    }
    old.count
}
