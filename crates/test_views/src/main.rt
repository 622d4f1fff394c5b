// What viewers get of stored images, one operation to a line in hexadecimal. The first byte of a line is the operation:
//
//     00 BYTES                                   Restore of any bytes, into a buffer that holds zeros at first
//     01 ROOM(2) NUMBER(4) LENGTH(2) LIST NAME   the snapshot for a list of prefixes, the name and the number left out of account
//     02, the same                               the topic of a name
//     03, the same                               the partition of a topic's name and a number
//     04, the same                               the freeze of a name
//
// ROOM is how many bytes the output has. A line of the output has the place of its operation, from 1, and then, but for Restore, the number that it
// says and, where that is 0, how many bytes it wrote and their digest.
#![tactic(auto)]

use model::answers::Answer;
use test_answer_lines::{end_line, print_first, print_no_line, print_written};
use wire::{get, get16};

fn query(
    operation: u8,
    image: &[u8],
    list: &[u8],
    name: &[u8],
    number: u32,
    out: &mut [u8],
) -> Answer {
    match operation {
        1 => view_snapshot::view_snapshot(image, list, out),
        2 => views::view_topic(image, list, name, out),
        3 => views::view_partition(image, list, name, number, out),
        0 | 4..=255 => views::view_freeze(image, list, name, out),
    }
}

// One query, and what it answers.
fn print_query(operation: u8, image: &[u8], list: &[u8], name: &[u8], number: u32, out: &mut [u8]) {
    let answer = query(operation, image, list, name, number, out);
    print_written(answer, out);
}

// The query of a line.
fn ask(line: &[u8], image: &[u8], out: &mut [u8]) {
    if line.len() < 9 {
        print_no_line();
        return;
    }
    let room = get16(line, 1);
    let number = get(line, 3, 4) as u32;
    let end = 9 + get16(line, 7);
    if line.len() < end || out.len() < room {
        print_no_line();
        return;
    }
    print_query(
        line[0],
        image,
        &line[9..end],
        &line[end..],
        number,
        &mut out[..room],
    );
}

fn answer(line: &[u8], image: &mut [u8], out: &mut [u8]) {
    if line.len() == 0 {
        print_no_line();
        return;
    }
    if line[0] == 0 {
        restore::restore(image, &line[1..]);
        return;
    }
    ask(line, image, out);
}

// Reads the whole input. A proved loop has to end, and nothing says that an input does: the places end at a number that no run comes to.
fn read_all(bytes: &mut [u8], image: &mut [u8], out: &mut [u8], chunk: &mut [u8]) {
    let mut input = test_hex_lines::start();
    let mut place = 0;
    while place < u64::MAX {
        input = test_hex_lines::next_line(bytes, chunk, input);
        if !input.found {
            return;
        }
        place += 1;
        print_first(place);
        let len = input.len;
        answer(&bytes[..len], image, out);
        end_line();
    }
}

fn main() {
    let mut bytes = [0u8; 8192];
    let mut image = [0u8; 4096];
    let mut out = [0u8; 4096];
    let mut chunk = io::large_buffer();
    read_all(&mut bytes, &mut image, &mut out, &mut chunk);
}
