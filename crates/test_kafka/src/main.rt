// Kafka's record bytes, one to a line in hexadecimal: WAY(1) ROOM(2) BYTES, where WAY is 0 to read Kafka's and 1 to write them, and ROOM is how many
// bytes the output has. A line is answered by its number; where that is 0, then by how many bytes were written, for reading how many were used, and
// the bytes written.
#![tactic(auto)]

use model::answers::{Answer, Counted};
use test_hex_lines::print_bytes;
use wire::{get16, wide};

// A number with a space after it.
fn print_number(n: u64) {
    io::print_decimal(1, n);
    io::write_all(1, b" ");
}

fn print_read(answer: Counted, out: &[u8]) {
    match answer {
        Counted::Written(n, used) => {
            print_number(0);
            print_number(n as u64);
            print_number(used);
            if n <= out.len() {
                print_bytes(&out[..n]);
            }
        }
        Counted::Refused(number) => {
            io::print_decimal(1, wide(number));
        }
    }
    io::write_all(1, b"\n");
}

fn print_written(answer: Answer, out: &[u8]) {
    match answer {
        Answer::Used(n) => {
            print_number(0);
            print_number(n as u64);
            if n <= out.len() {
                print_bytes(&out[..n]);
            }
        }
        Answer::Refused(number) => {
            io::print_decimal(1, wide(number));
        }
    }
    io::write_all(1, b"\n");
}

fn read_line(bytes: &[u8], out: &mut [u8]) {
    let answer = kafka_read::read(bytes, out);
    print_read(answer, out);
}

fn write_line(bytes: &[u8], out: &mut [u8]) {
    let answer = kafka_write::write(bytes, out);
    print_written(answer, out);
}

fn answer(line: &[u8], work: &mut [u8]) {
    if line.len() < 3 {
        return;
    }
    let room = get16(line, 1);
    if work.len() < room {
        return;
    }
    if line[0] == 0 {
        read_line(&line[3..], &mut work[..room]);
        return;
    }
    write_line(&line[3..], &mut work[..room]);
}

// Reads the whole input. A proved loop has to end, and nothing says that an input does: it counts down from a number that no run uses up.
fn read_all(bytes: &mut [u8], work: &mut [u8], chunk: &mut [u8]) {
    let mut input = test_hex_lines::start();
    let mut turns = u64::MAX;
    while turns > 0 {
        input = test_hex_lines::next_line(bytes, chunk, input);
        if !input.found {
            return;
        }
        let len = input.len;
        answer(&bytes[..len], work);
        turns -= 1;
    }
}

fn main() {
    let mut bytes = [0u8; 4096];
    let mut work = [0u8; 1024];
    let mut chunk = io::large_buffer();
    read_all(&mut bytes, &mut work, &mut chunk);
}
