// Short histories, one to a line in hexadecimal: ROOM(2) NUMBER(8) RECORDS, where ROOM is how many bytes the output has. A line is answered by its
// number; where that is 0, then by how many bytes were written and these.
#![tactic(auto)]

use model::answers::Answer;
use test_hex_lines::print_bytes;
use wire::{get, get16, wide};

// A number with a space after it.
fn print_number(n: u64) {
    io::print_decimal(1, n);
    io::write_all(1, b" ");
}

fn print_answer(answer: Answer, out: &[u8]) {
    match answer {
        Answer::Used(n) => {
            print_number(0);
            print_number(n as u64);
            if n <= out.len() {
                print_bytes(&out[..n]);
            }
        }
        Answer::Refused(number) => {
            io::print_decimal(1, wide(number));
        }
    }
    io::write_all(1, b"\n");
}

fn print_history(records: &[u8], number: u64, out: &mut [u8]) {
    let answer = short_histories::history(records, number, out);
    print_answer(answer, out);
}

fn answer(line: &[u8], work: &mut [u8]) {
    if line.len() < 10 {
        return;
    }
    let room = get16(line, 0);
    if work.len() < room {
        return;
    }
    print_history(&line[10..], get(line, 2, 8), &mut work[..room]);
}

// Reads the whole input. A proved loop has to end, and nothing says that an input does: it counts down from a number that no run uses up.
fn read_all(bytes: &mut [u8], work: &mut [u8], chunk: &mut [u8]) {
    let mut input = test_hex_lines::start();
    let mut turns = u64::MAX;
    while turns > 0 {
        input = test_hex_lines::next_line(bytes, chunk, input);
        if !input.found {
            return;
        }
        let len = input.len;
        answer(&bytes[..len], work);
        turns -= 1;
    }
}

fn main() {
    let mut bytes = [0u8; 70000];
    let mut work = [0u8; 1024];
    let mut chunk = io::large_buffer();
    read_all(&mut bytes, &mut work, &mut chunk);
}
