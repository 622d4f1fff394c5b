// What changes an image: Open, the steps of a history, its cuts, Restore.
use model::answers::{Answer, Restored};
use test_answer_lines::{print_buffer, print_next, print_no_line, print_written};
use wire::wide;

// What Open and Restore find in their buffer.
const DIRT: u8 = 0xaa;

fn fill(buffer: &mut [u8]) {
    let mut i = 0;
    while i < buffer.len() {
        buffer[i] = DIRT;
        i += 1;
    }
}

fn open_in(buffer: &mut [u8]) {
    fill(buffer);
    let number = header::open(buffer);
    print_next(wide(number));
    print_buffer(buffer);
}

// Opens an image of the capacity that a line says. The capacity of the buffer that the next operations go to.
pub fn open(work: &mut [u8], rest: &[u8]) -> usize {
    if rest.len() < 3 {
        print_no_line();
        return 0;
    }
    let capacity = wire::get(rest, 0, 3) as usize;
    if work.len() < capacity {
        print_no_line();
        return 0;
    }
    open_in(&mut work[..capacity]);
    capacity
}

fn apply_in(image: &mut [u8], offset: u64, record: &[u8]) {
    let number = apply::apply(image, offset, record);
    print_next(wide(number));
    print_buffer(image);
}

// One record of a history, at its log offset.
fn give(always: bool, image: &mut [u8], offset: u64, record: &[u8]) {
    let number = validate::validate(image, record);
    print_next(wide(number));
    if always || number == 0 {
        apply_in(image, offset, record);
    }
}

// The log offset in eight bytes, and the record.
pub fn step(always: bool, image: &mut [u8], rest: &[u8]) {
    if rest.len() < 8 {
        print_no_line();
        return;
    }
    give(always, image, wire::get(rest, 0, 8), &rest[8..]);
}

fn print_restored(restored: Restored) {
    match restored {
        Restored::Done => print_next(0),
        Restored::Refused(number) => print_next(wide(number)),
        Restored::Stopped(number, place) => {
            print_next(wide(number));
            print_next(place as u64);
        }
    }
}

// Restore of any bytes.
pub fn restore(image: &mut [u8], bytes: &[u8]) {
    let restored = restore::restore(image, bytes);
    print_restored(restored);
    print_buffer(image);
}

// A restart: a snapshot, and what it says restored.
pub fn cut(image: &mut [u8], out: &mut [u8]) {
    let answer = snapshot::snapshot(image, out);
    print_written(answer, out);
    match answer {
        Answer::Used(n) => {
            if n <= out.len() {
                fill(image);
                restore(image, &out[..n]);
            }
        }
        Answer::Refused(number) => {}
    }
}
