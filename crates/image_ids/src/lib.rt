// Ids: whether no two topics are named for one. A table of marks tells most ids that are new; the entries before are looked through only
// where an id's mark is there.
#![tactic(auto)]

ghost use Rattle.std.specs.Prelude.{◌≡◌, true, not, map, ◌<◌, length};
ghost use Rattle.model.specs.Choice.{every};
ghost use Rattle.model.specs.Contents.{names_id, named_apart};
ghost use Rattle.model.specs.Image.{entry_of};
ghost use Rattle.entries.specs.Entries.{records_in, Entries, IsRecord, record_in};
ghost use Rattle.image_ids.specs.Ids.{is_named, id_of, place_of};

use entries::{Cursor, Step};
use keys::{number_at, value_at};
use model::kinds::TOPIC;

// Whether an entry is a named topic. Topics are of kind 1, and a named one's fifth field spells 1.
fn is_named(e: &[u8]) -> bool
    requires { IsRecord e.now }
    ensures { result ≡ is_named (record_in e.now) }
{
    if e[0] != TOPIC {
        return false;
    }
    number_at(e, 5, 5) == 1
}

// Whether an entry is a topic that is named for an id.
pub fn names(e: &[u8], id: &[u8]) -> bool
    requires { IsRecord e.now }
    ensures { result ≡ names_id id.now (entry_of (record_in e.now)) }
{
    let p = value_at(e, 2);
    let start = p.start;
    let end = p.end;
    if !wire::same(&e[start..end], id) {
        return false;
    }
    is_named(e)
}

// Whether no entry is a topic that is named for an id.
fn none_names(s: &[u8], id: &[u8]) -> bool
    requires { Entries s.now }
    ensures { result ≡ every (λ e. not (names_id id.now e)) (map entry_of (records_in s.now)) }
{
    let mut c = Cursor { at: 0 };
    loop {
        match c.next(s) {
            Step::Entry(start, end, next) => {
                c = next;
                if names(&s[start..end], id) {
                    return false;
                }
            }
            Step::Torn => {
                return true;
            }
            Step::End => {
                return true;
            }
        }
    }
}

// Whether no entry is a topic that is named for the id of `topic`.
fn is_new(s: &[u8], topic: &[u8]) -> bool
    requires { Entries s.now × IsRecord topic.now }
    ensures { result ≡ every (λ e. not (names_id (id_of (record_in topic.now)) e)) (map entry_of (records_in s.now)) }
{
    let p = value_at(topic, 2);
    let start = p.start;
    let end = p.end;
    none_names(s, &topic[start..end])
}

// Where the mark of a topic's id stands: at the number of the id's last two bytes, of 16.
fn mark_place(topic: &[u8]) -> usize
    requires { IsRecord topic.now × (is_named (record_in topic.now) ≡ true) }
    ensures { (result ≡ place_of (id_of (record_in topic.now))) × (result < 65536) }
{
    let p = value_at(topic, 2);
    let start = p.start;
    wire::get16(topic, start + 14)
}

// The walk, with a table for the marks. Marks that are there already cost time and change no answer.
fn ids_apart_with(s: &[u8], seen: &mut [u8]) -> bool
    requires { Entries s.now × (length seen.old ≡ 65536) }
    ensures { result ≡ named_apart (map entry_of (records_in s.now)) }
{
    let mut c = Cursor { at: 0 };
    loop {
        match c.next(s) {
            Step::Entry(start, end, next) => {
                c = next;
                if !is_named(&s[start..end]) {
                    continue;
                }
                let place = mark_place(&s[start..end]);
                if seen[place] == 0 {
                    seen[place] = 1;
                    continue;
                }
                if !is_new(&s[..start], &s[start..end]) {
                    return false;
                }
            }
            Step::Torn => {
                return true;
            }
            Step::End => {
                return true;
            }
        }
    }
}

// Whether no two topics are named for one id.
pub fn ids_apart(s: &[u8]) -> bool
    requires { Entries s.now }
    ensures { result ≡ named_apart (map entry_of (records_in s.now)) }
{
    let mut seen = [0u8; 65536];
    ids_apart_with(s, &mut seen)
}
