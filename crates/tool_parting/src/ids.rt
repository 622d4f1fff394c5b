// What the topics' ids name: no record of a snapshot says it.
ghost use Rattle.std.specs.Prelude.{◌≤◌, length};

use crate::snapshots::{end_of, more_by_one, take_snapshot};
use keys::value_at;
use model::answers::Answer;
use model::kinds::TOPIC;
use std::io::Stdout;
use tool_subjects::say_subject;
use tool_words::say;

// The topic that an id names, into `out`. How many bytes it has, 0 where there is none.
fn named_by(image: &[u8], id: &[u8; 16], out: &mut [u8]) -> usize
    ensures { result ≤ length out.new }
{
    match lookup::topic_by_id(image, id, out) {
        Answer::Used(n) => {
            if out.len() < n {
                return 0;
            }
            n
        }
        Answer::Refused(number) => 0,
    }
}

// Whether an id names the same topic in both images.
fn same_name(plain: &[u8], other: &[u8], id: &[u8; 16]) -> bool {
    let mut one = io::buffer();
    let mut two = io::buffer();
    let n = named_by(plain, id, &mut one);
    let m = named_by(other, id, &mut two);
    wire::same(&one[..n], &two[..m])
}

// Whether a record is a topic whose id names another topic in the second image.
fn is_renamed(plain: &[u8], other: &[u8], rec: &[u8]) -> bool {
    if rec.len() < 3 || rec[0] != TOPIC {
        return false;
    }
    let p = value_at(rec, 2);
    let start = p.start;
    let end = p.end;
    if end - start != 16 {
        return false;
    }
    let mut id = [0u8; 16];
    wire::copy(&mut id, 0, &rec[start..end]);
    !same_name(plain, other, &id)
}

// How many topics' ids name another topic, and whether what was said of them was written.
#[derive(Clone, Copy)]
pub struct Apart {
    pub count: u64,
    pub written: bool,
}

// A record, which is said where it is such a topic.
fn with_record(stdout: Stdout, plain: &[u8], other: &[u8], rec: &[u8], seen: Apart) -> Apart {
    if !is_renamed(plain, other, rec) {
        return seen;
    }
    Apart {
        count: more_by_one(seen.count),
        written: say(stdout, b"  after the restart: the id of ")
            && say_subject(stdout, rec)
            && say(stdout, b" names another topic\n"),
    }
}

// How many of the records are such topics; says each.
fn count_renamed(stdout: Stdout, plain: &[u8], other: &[u8], records: &[u8]) -> Apart {
    let mut seen = Apart {
        count: 0,
        written: true,
    };
    let mut at = 0;
    while at < records.len() {
        let end = end_of(records, at);
        seen = with_record(stdout, plain, other, &records[at..end], seen);
        if !seen.written {
            return seen;
        }
        at = end;
    }
    seen
}

// How many topics' ids name another topic in the second image; says each.
pub fn renamed(stdout: Stdout, plain: &[u8], other: &[u8], out: &mut [u8]) -> Apart {
    let n = take_snapshot(plain, out);
    count_renamed(stdout, plain, other, &out[..n])
}
