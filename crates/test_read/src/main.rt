// Reads records, one to a line in hexadecimal, and writes Read's number for each, and the bytes used where it is 0. Lines that have a '#' are
// passed over.
#![tactic(auto)]

use model::answers::Answer;

fn print_answer(bytes: &[u8]) {
    match records::read(bytes) {
        Answer::Used(n) => {
            io::write_all(1, b"0 ");
            io::print_decimal(1, n as u64);
        }
        Answer::Refused(n) => {
            io::print_decimal(1, n as u64);
        }
    }
    io::write_all(1, b"\n");
}

// Reads the whole input. A proved loop has to end, and nothing says that an input does: it counts down from a number that no run uses up.
fn read_all(bytes: &mut [u8], chunk: &mut [u8]) {
    let mut input = test_hex_lines::start();
    let mut turns = u64::MAX;
    while turns > 0 {
        input = test_hex_lines::next_line(bytes, chunk, input);
        if !input.found {
            return;
        }
        let len = input.len;
        print_answer(&bytes[..len]);
        turns -= 1;
    }
}

fn main() {
    let mut bytes = [0u8; 70000];
    let mut chunk = io::large_buffer();
    read_all(&mut bytes, &mut chunk);
}
