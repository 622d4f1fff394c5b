// The arguments: a file, `cut N` or `cut all`, `at CAPACITY`, in any order, or `help`.
#![tactic(auto)]

ghost use Rattle.std.specs.Prelude.{◌≤◌, length, IfSome};

use lookup_rates::{Rate, rate_of};
use std::env::{Env, FillError};
use tool_words::names::complain_line;

// Where the history is cut, if at all: after each record, or after so many.
#[derive(Clone, Copy)]
pub struct Cuts {
    pub any: bool,
    pub each: bool,
    pub after: u64,
}

// The arguments read, what is wrong with them, if anything, and whether help is asked for. The first `length` bytes of the path buffer name the
// file, none where the sample is meant.
#[derive(Clone, Copy)]
pub struct Options {
    pub fault: u8,
    pub help: bool,
    pub length: usize,
    pub sized: bool,
    pub capacity: u64,
    pub cuts: Cuts,
}

// What can be wrong: the words for each are `say_fault`'s.
pub const NOTHING_WRONG: u8 = 0;

const NOT_UNDERSTOOD: u8 = 1;

const TWO_FILES: u8 = 2;

const LONG_NAME: u8 = 3;

const NO_CUT: u8 = 4;

const TWO_CUTS: u8 = 5;

const NO_CAPACITY: u8 = 6;

const TWO_CAPACITIES: u8 = 7;

const WORD_MISSING: u8 = 8;

// Says on standard error what is wrong.
pub fn say_fault(fault: u8) {
    complain_line(
        b"nothing is wrong\n\
        a word is not understood\n\
        there are two files, and one is read\n\
        the file's name is empty or too long\n\
        behind 'cut' stands 'all', or the number of records before the restart, from 1\n\
        there are two cuts: 'cut all' restarts behind each record\n\
        behind 'at' stands the capacity, a number from 144 to 65536\n\
        there are two capacities\n\
        behind 'cut' and 'at' stands one more word",
        fault,
    );
}

// The greatest capacity, where no other is given.
const CAPACITY: u64 = 65536;

fn defaults() -> Options {
    Options {
        fault: NOTHING_WRONG,
        help: false,
        length: 0,
        sized: false,
        capacity: CAPACITY,
        cuts: Cuts {
            any: false,
            each: false,
            after: 0,
        },
    }
}

// The first thing that is wrong stays.
fn with_fault(options: Options, fault: u8) -> Options {
    let mut next = options;
    if options.fault == NOTHING_WRONG {
        next.fault = fault;
    }
    next
}

// The number that a word spells, 0 where it spells none: neither a cut nor a capacity is 0.
fn number_in(word: &[u8]) -> u64 {
    match rate_of(word) {
        Rate::Is(n) => n,
        Rate::None => 0,
    }
}

// `cut`: the word behind it is a number, or `all`.
fn with_cut(options: Options, word: &[u8]) -> Options {
    let cuts = options.cuts;
    if cuts.any {
        return with_fault(options, TWO_CUTS);
    }
    let each = wire::same(word, b"all");
    let after = number_in(word);
    if !each && after == 0 {
        return with_fault(options, NO_CUT);
    }
    let asked = Cuts {
        any: true,
        each,
        after,
    };
    let mut next = options;
    next.cuts = asked;
    next
}

// `at`: the word behind it is a number. Which capacities there are Open decides.
fn with_capacity(options: Options, word: &[u8]) -> Options {
    if options.sized {
        return with_fault(options, TWO_CAPACITIES);
    }
    let capacity = number_in(word);
    if capacity == 0 {
        return with_fault(options, NO_CAPACITY);
    }
    let mut next = options;
    next.sized = true;
    next.capacity = capacity;
    next
}

// A word by itself is the file; there is one, and it fits.
fn with_file(options: Options, path: &mut [u8], word: &[u8]) -> Options {
    if options.length != 0 {
        return with_fault(options, TWO_FILES);
    }
    if path.len() < word.len() || word.len() == 0 {
        return with_fault(options, LONG_NAME);
    }
    wire::copy(path, 0, word);
    let mut next = options;
    next.length = word.len();
    next
}

// Whether a word asks for the one behind it.
fn asks(word: &[u8]) -> bool {
    wire::same(word, b"cut") || wire::same(word, b"at")
}

// Whether a word asks for help.
fn asks_help(word: &[u8]) -> bool {
    wire::same(word, b"help") || wire::same(word, b"--help") || wire::same(word, b"-h")
}

// Whether a word is an option, of which there are none: a file's name may begin so behind `./`.
fn is_option(word: &[u8]) -> bool {
    1 < word.len() && word[0] == b'-'
}

// A word by itself.
fn with_single(options: Options, path: &mut [u8], word: &[u8]) -> Options {
    if asks_help(word) {
        let mut next = options;
        next.help = true;
        return next;
    }
    if is_option(word) {
        return with_fault(options, NOT_UNDERSTOOD);
    }
    with_file(options, path, word)
}

// A word, taken as the word before it asks.
fn with_word(options: Options, path: &mut [u8], before: &[u8], word: &[u8]) -> Options {
    if wire::same(before, b"cut") {
        return with_cut(options, word);
    }
    if wire::same(before, b"at") {
        return with_capacity(options, word);
    }
    if asks(word) {
        return options;
    }
    with_single(options, path, word)
}

// How far the arguments were read: whether the last one asks for the next.
#[derive(Clone, Copy)]
struct Reading {
    options: Options,
    asking: bool,
}

// The argument at a place into a buffer: how many bytes it has, 0 where they are more than the buffer's. None where there are fewer arguments.
fn argument<E: Env>(env: &E, i: usize, word: &mut [u8]) -> Option<usize>
    ensures { IfSome result (λ n. n ≤ length word.new) }
{
    match env.arg(i, word) {
        Ok(n) => Some(n),
        Err(FillError::TooLong) => Some(0),
        Err(FillError::NotPresent) => None,
    }
}

// The argument at a place, with the one before it, which may ask for it. None where there are fewer.
fn with_argument<E: Env>(env: &E, reading: Reading, path: &mut [u8], i: usize) -> Option<Reading>
    requires { 1 ≤ i }
{
    let mut word = io::buffer();
    let mut before = io::buffer();
    let n = argument(env, i, &mut word)?;
    let m = argument(env, i - 1, &mut before)?;
    let options = reading.options;
    if reading.asking {
        let next = with_word(options, path, &before[..m], &word[..n]);
        return Some(Reading {
            options: next,
            asking: false,
        });
    }
    let next = with_word(options, path, b"", &word[..n]);
    Some(Reading {
        options: next,
        asking: asks(&word[..n]),
    })
}

// Reads all arguments but the program's name.
pub fn read_options<E: Env>(env: &E, path: &mut [u8]) -> Options {
    let options = defaults();
    let mut reading = Reading {
        options,
        asking: false,
    };
    for i in 1..usize::MAX {
        match with_argument(env, reading, path, i) {
            Some(next) => reading = next,
            None => break,
        }
    }
    let last = reading.options;
    if reading.asking {
        return with_fault(last, WORD_MISSING);
    }
    last
}
