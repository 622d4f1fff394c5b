// The freeze of a name from runs of records, one to a line in hexadecimal: ROOM(2) LENGTH(2) NAME RUN, where ROOM is how many bytes the output has. A
// line is answered by its number; where that is 0, then by how many bytes were written and these; where a record is refused, by its place.
#![tactic(auto)]

use model::answers::RunAnswer;
use test_hex_lines::print_bytes;
use wire::{get16, wide};

// A number with a space after it.
fn print_number(n: u64) {
    io::print_decimal(1, n);
    io::write_all(1, b" ");
}

fn print_answer(answer: RunAnswer, out: &[u8]) {
    match answer {
        RunAnswer::Written(n) => {
            print_number(0);
            print_number(n as u64);
            if n <= out.len() {
                print_bytes(&out[..n]);
            }
        }
        RunAnswer::Refused(number) => {
            io::print_decimal(1, wide(number));
        }
        RunAnswer::Stopped(number, at) => {
            print_number(wide(number));
            io::print_decimal(1, at as u64);
        }
    }
    io::write_all(1, b"\n");
}

fn print_freeze_in(run: &[u8], name: &[u8], out: &mut [u8]) {
    let answer = log_freeze::log_freeze(run, name, out);
    print_answer(answer, out);
}

fn answer(line: &[u8], work: &mut [u8]) {
    if line.len() < 4 {
        return;
    }
    let room = get16(line, 0);
    let end = 4 + get16(line, 2);
    if line.len() < end || work.len() < room {
        return;
    }
    print_freeze_in(&line[end..], &line[4..end], &mut work[..room]);
}

// Reads the whole input. A proved loop has to end, and nothing says that an input does: it counts down from a number that no run uses up.
fn read_all(bytes: &mut [u8], work: &mut [u8], chunk: &mut [u8]) {
    let mut input = test_hex_lines::start();
    let mut turns = u64::MAX;
    while turns > 0 {
        input = test_hex_lines::next_line(bytes, chunk, input);
        if !input.found {
            return;
        }
        let len = input.len;
        answer(&bytes[..len], work);
        turns -= 1;
    }
}

fn main() {
    let mut bytes = [0u8; 70000];
    let mut work = [0u8; 1024];
    let mut chunk = io::large_buffer();
    read_all(&mut bytes, &mut work, &mut chunk);
}
