// Replays stored histories, one operation to a line in hexadecimal, and writes what each answers. The first byte of a line is the operation:
//
//     00 CAPACITY(3)        Open of a buffer of so many bytes, each of them 0xaa
//     01 OFFSET(8) RECORD   Validate, and Apply where it says 0
//     02 OFFSET(8) RECORD   Validate, and Apply whatever it says
//     03                    a cut: Snapshot, and Restore of what it wrote into a buffer of 0xaa
//     04 BYTES              Restore of any bytes
//     05                    Snapshot
//     06 NAME               the freeze of a name
//     07 KIND NODE(8)       the throttle of a node
//     08 LEVEL(2)           the listing for a downgrade
//     09 NUMBER(4) NAME     the partition of a topic and a number
//     0a                    the log offset
//
// A line of the output has the place of its operation, from 1, and then: the numbers that it says (Validate's and Apply's; Snapshot's and Restore's;
// a refused Restore's with its place); after Open, Apply and Restore the used length and a digest of the whole buffer; of what writes records how
// many bytes and their digest; of a throttle the rate where there is one; the log offset as an unsigned number of its bits.
#![tactic(auto)]

mod history;
mod questions;

use test_answer_lines::{end_line, print_first, print_no_line};

// One operation on an image.
fn run(operation: u8, image: &mut [u8], out: &mut [u8], rest: &[u8]) {
    match operation {
        1 => history::step(false, image, rest),
        2 => history::step(true, image, rest),
        3 => history::cut(image, out),
        4 => history::restore(image, rest),
        0 | 5..=255 => questions::ask(operation, image, out, rest),
    }
}

// One operation on the image that has the first `capacity` bytes.
fn run_in(operation: u8, work: &mut [u8], capacity: usize, out: &mut [u8], rest: &[u8]) {
    if work.len() < capacity {
        print_no_line();
        return;
    }
    run(operation, &mut work[..capacity], out, rest);
}

// Runs a line's operation. The capacity afterwards.
fn answer(bytes: &[u8], work: &mut [u8], out: &mut [u8], capacity: usize) -> usize {
    if bytes.len() == 0 {
        print_no_line();
        return capacity;
    }
    let operation = bytes[0];
    let rest = &bytes[1..];
    if operation == 0 {
        return history::open(work, rest);
    }
    run_in(operation, work, capacity, out, rest);
    capacity
}

// Reads the whole input. A proved loop has to end, and nothing says that an input does: the places end at a number that no run comes to.
fn read_all(bytes: &mut [u8], work: &mut [u8], out: &mut [u8], chunk: &mut [u8]) {
    let mut input = test_hex_lines::start();
    let mut capacity = 0;
    let mut place = 0;
    while place < u64::MAX {
        input = test_hex_lines::next_line(bytes, chunk, input);
        if !input.found {
            return;
        }
        place += 1;
        print_first(place);
        let len = input.len;
        capacity = answer(&bytes[..len], work, out, capacity);
        end_line();
    }
}

fn main() {
    let mut bytes = [0u8; 70000];
    let mut work = [0u8; 70000];
    let mut out = [0u8; 70000];
    let mut chunk = io::large_buffer();
    read_all(&mut bytes, &mut work, &mut out, &mut chunk);
}
