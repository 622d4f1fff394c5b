// What changes no image: Snapshot, the lookups, the listing for a downgrade.
use model::NodeId;
use model::answers::{Rated, Value};
use test_answer_lines::{print_next, print_no_line, print_written};
use wire::wide;

fn freeze(image: &[u8], out: &mut [u8], name: &[u8]) {
    let answer = lookup::freeze(image, name, out);
    print_written(answer, out);
}

fn throttle(image: &[u8], rest: &[u8]) {
    if rest.len() < 9 {
        print_no_line();
        return;
    }
    match lookup::throttle(image, NodeId(wire::get(rest, 1, 8)), rest[0]) {
        Rated::Rate(n) => {
            print_next(0);
            print_next(n);
        }
        Rated::None => print_next(0),
        Rated::Refused(number) => print_next(wide(number)),
    }
}

fn downgrade(image: &[u8], out: &mut [u8], rest: &[u8]) {
    if rest.len() < 2 {
        print_no_line();
        return;
    }
    let answer = downgrade::downgrade(image, wire::get(rest, 0, 2) as u16, out);
    print_written(answer, out);
}

fn partition(image: &[u8], out: &mut [u8], rest: &[u8]) {
    if rest.len() < 4 {
        print_no_line();
        return;
    }
    let number = wire::get(rest, 0, 4) as u32;
    let answer = lookup::partition(image, &rest[4..], number, out);
    print_written(answer, out);
}

fn log_offset(image: &[u8]) {
    match lookup::log_offset(image) {
        Value::Is(offset) => {
            print_next(0);
            print_next(offset);
        }
        Value::Refused(number) => print_next(wide(number)),
    }
}

// One question to an image.
pub fn ask(operation: u8, image: &[u8], out: &mut [u8], rest: &[u8]) {
    match operation {
        5 => {
            let answer = snapshot::snapshot(image, out);
            print_written(answer, out);
        }
        6 => freeze(image, out, rest),
        7 => throttle(image, rest),
        8 => downgrade(image, out, rest),
        9 => partition(image, out, rest),
        10 => log_offset(image),
        0..=4 | 11..=255 => print_no_line(),
    }
}
