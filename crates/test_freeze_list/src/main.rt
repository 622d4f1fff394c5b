// The freezes of lists of names, one list to a line in hexadecimal: IMAGE(1) ROOM(2) LENGTH(2) RUN LIST, where RUN is restored, IMAGE is 0 where the
// buffer is then made no image, and ROOM is how many bytes the output has. A line is answered by its number; where that is 0, then by how many
// bytes were written, by the freezes read, and by these bytes.
#![tactic(auto)]

use model::answers::Counted;
use test_hex_lines::print_bytes;
use wire::{get16, wide};

// A number with a space after it.
fn print_number(n: u64) {
    io::print_decimal(1, n);
    io::write_all(1, b" ");
}

fn print_answer(answer: Counted, out: &[u8]) {
    match answer {
        Counted::Written(n, read) => {
            print_number(0);
            print_number(n as u64);
            print_number(read);
            if n <= out.len() {
                print_bytes(&out[..n]);
            }
        }
        Counted::Refused(number) => {
            io::print_decimal(1, wide(number));
        }
    }
    io::write_all(1, b"\n");
}

fn print_freezes(image: &[u8], list: &[u8], out: &mut [u8]) {
    let answer = lookup_freeze_list::freeze_list(image, list, out);
    print_answer(answer, out);
}

// Makes an image none, where that is asked for.
fn spoil(kept: u8, image: &mut [u8]) {
    if kept != 0 {
        return;
    }
    if image.len() == 0 {
        return;
    }
    image[0] = 0;
}

fn answer(line: &[u8], image: &mut [u8], work: &mut [u8]) {
    if line.len() < 5 {
        return;
    }
    let room = get16(line, 1);
    let end = 5 + get16(line, 3);
    if line.len() < end || work.len() < room {
        return;
    }
    restore::restore(image, &line[5..end]);
    spoil(line[0], image);
    print_freezes(image, &line[end..], &mut work[..room]);
}

// Reads the whole input. A proved loop has to end, and nothing says that an input does: it counts down from a number that no run uses up.
fn read_all(bytes: &mut [u8], image: &mut [u8], work: &mut [u8], chunk: &mut [u8]) {
    let mut input = test_hex_lines::start();
    let mut turns = u64::MAX;
    while turns > 0 {
        input = test_hex_lines::next_line(bytes, chunk, input);
        if !input.found {
            return;
        }
        let len = input.len;
        answer(&bytes[..len], image, work);
        turns -= 1;
    }
}

fn main() {
    let mut bytes = [0u8; 8192];
    let mut image = [0u8; 2048];
    let mut work = [0u8; 1024];
    let mut chunk = io::large_buffer();
    read_all(&mut bytes, &mut image, &mut work, &mut chunk);
}
