// Reads operations over images, one to a line in hexadecimal, and writes what each answers. The first byte of a line is the operation; numbers
// have their first byte first, ROOM is how many bytes the output has.
//
//     00 CAPACITY(3) BYTES                     Open of a buffer that BYTES fill again and again, or 0xaa where there are none
//     01 BUFFER                                the exact test
//     02 ROOM(2) LENGTH(2) NAME IMAGE          the topic of a name
//     03 ROOM(2) ID(16) IMAGE                  the topic of an id
//     04 ROOM(2) LENGTH(2) NAME NUMBER(4) IMAGE   the partition of a topic and a number
//     05 ROOM(2) NODE(8) IMAGE                 the broker of a node
//     06 IMAGE                                 the features epoch
//     07 IMAGE                                 how many partitions are short
//     08 CAPACITY(3) BYTES                     the exact test of a buffer of BYTES and zeros after them
//     09 IMAGE                                 the log offset, as an unsigned number of its bits
#![tactic(auto)]

mod lookups;
mod print;

use print::{print_digest, print_line, print_number};
use wire::{get, wide};

// What Open finds in its buffer where a line does not say.
const DIRT: u8 = 0xaa;

fn print_is_image(buffer: &[u8]) {
    if image::is_image(buffer) {
        print_line(b"image");
    } else {
        print_line(b"no image");
    }
}

// The byte at a place of some bytes that are repeated.
fn repeated(bytes: &[u8], at: usize) -> u8 {
    if bytes.len() == 0 {
        return DIRT;
    }
    bytes[at % bytes.len()]
}

// Fills a buffer with some bytes again and again.
fn fill(buffer: &mut [u8], with: &[u8]) {
    let mut i = 0;
    while i < buffer.len() {
        buffer[i] = repeated(with, i);
        i += 1;
    }
}

// Open's number, the header's numbers where it is 0, and a digest of the buffer.
fn print_open(buffer: &mut [u8], with: &[u8]) {
    fill(buffer, with);
    let number = header::open(buffer);
    print_number(wide(number));
    if number == 0 && buffer.len() >= header::HEAD_SIZE {
        print_number(header::used_in(buffer) as u64);
        print_number(header::epoch_in(buffer));
    }
    print_digest(buffer);
}

// The exact test of some bytes and zeros after them.
fn print_padded(buffer: &mut [u8], bytes: &[u8]) {
    wire::clear(buffer);
    if buffer.len() < bytes.len() {
        print_line(b"no line");
        return;
    }
    wire::copy(buffer, 0, bytes);
    print_is_image(buffer);
}

// An operation on a buffer whose capacity its line says.
fn print_sized(open: bool, rest: &[u8], work: &mut [u8]) {
    if rest.len() < 3 {
        print_line(b"no line");
        return;
    }
    let capacity = get(rest, 0, 3) as usize;
    if work.len() < capacity {
        print_line(b"no line");
        return;
    }
    if open {
        print_open(&mut work[..capacity], &rest[3..]);
    } else {
        print_padded(&mut work[..capacity], &rest[3..]);
    }
}

fn answer(bytes: &[u8], work: &mut [u8]) {
    if bytes.len() == 0 {
        return;
    }
    let operation = bytes[0];
    let rest = &bytes[1..];
    match operation {
        0 => print_sized(true, rest, work),
        1 => print_is_image(rest),
        2 => lookups::print_topic(rest, work),
        3 => lookups::print_topic_of_id(rest, work),
        4 => lookups::print_partition(rest, work),
        5 => lookups::print_broker(rest, work),
        6 => print::print_value(lookup::features_epoch(rest)),
        7 => print::print_value(lookup::short_count(rest)),
        8 => print_sized(false, rest, work),
        9 => print::print_value(lookup::log_offset(rest)),
        10..=255 => print_line(b"no line"),
    }
}

// Reads the whole input. A proved loop has to end, and nothing says that an input does: it counts down from a number that no run uses up.
fn read_all(bytes: &mut [u8], work: &mut [u8], chunk: &mut [u8]) {
    let mut input = test_hex_lines::start();
    let mut turns = u64::MAX;
    while turns > 0 {
        input = test_hex_lines::next_line(bytes, chunk, input);
        if !input.found {
            return;
        }
        let len = input.len;
        answer(&bytes[..len], work);
        turns -= 1;
    }
}

fn main() {
    let mut bytes = [0u8; 70000];
    let mut work = [0u8; 70000];
    let mut chunk = io::large_buffer();
    read_all(&mut bytes, &mut work, &mut chunk);
}
