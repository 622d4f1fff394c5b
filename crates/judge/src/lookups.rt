// Stored entries by what a record names.
ghost use Rattle.std.specs.Prelude.{◌≡◌, [], ◌≤◌, length};
ghost use Rattle.model.specs.Choice.{is_some};
ghost use Rattle.model.specs.Run.{value};
ghost use Rattle.model.specs.Map.{get};
ghost use Rattle.model.specs.Contents.{key};
ghost use Rattle.keys.specs.Keys.{run_in};
ghost use Rattle.entries.specs.Entries.{Entries, Placed};
ghost use Rattle.find.specs.Found.{Query, query_key};
ghost use Rattle.entries.specs.Held.{entries_in};

use entries::Place;
use find::find;
use keys::value_at;

// Whether there is an entry of a kind whose first two fields, or as much of them as its key has, are these.
pub fn is_stored(s: &[u8], kind: u8, first: &[u8], second: &[u8]) -> bool
    requires { Entries s.now × Query kind first.now second.now }
    ensures { result ≡ is_some (get key (query_key kind first.now second.now) (entries_in s.now)) }
{
    let p = find(s, kind, first, second);
    p.at < p.end
}

// The place of the entry of a kind that a record's first field names.
pub fn find_named(s: &[u8], kind: u8, rec: &[u8]) -> Place
    requires { Entries s.now × (3 ≤ length rec.now) × Query kind (value 1 (run_in rec.now)) [] }
    ensures { Placed s.now (query_key kind (value 1 (run_in rec.now)) []) result.at result.end }
{
    let p = value_at(rec, 1);
    let start = p.start;
    let end = p.end;
    find(s, kind, &rec[start..end], b"")
}
