// Where pairs of recordings part, one pair to a line in hexadecimal: FIRST(4) SECOND(4) LENGTH(2) ONE OTHER, where FIRST and SECOND are the capacities
// and LENGTH is how many bytes the first run has. A line is answered by its number; where that is 0, then by 1 where the runs part and 0 where they agree,
// by the count, and by the used bytes of both images.
#![tactic(auto)]

use model::answers::Compared;
use test_hex_lines::print_bytes;
use wire::{get16, wide};

// A number with a space after it.
fn print_number(n: u64) {
    io::print_decimal(1, n);
    io::write_all(1, b" ");
}

// The used bytes of an image, as its header has their number.
fn print_used(image: &[u8]) {
    io::write_all(1, b" ");
    if image.len() < 12 {
        return;
    }
    let used = get16(image, 8) * 65536 + get16(image, 10);
    if image.len() < used {
        return;
    }
    print_bytes(&image[..used]);
}

fn print_compared(first: &mut [u8], second: &mut [u8], one: &[u8], other: &[u8]) {
    match recordings::compare(first, second, one, other) {
        Compared::Refused(number) => {
            io::print_decimal(1, wide(number));
        }
        Compared::Parted(k) => {
            print_number(0);
            print_number(1);
            io::print_decimal(1, k);
            print_used(first);
            print_used(second);
        }
        Compared::Agree(k) => {
            print_number(0);
            print_number(0);
            io::print_decimal(1, k);
            print_used(first);
            print_used(second);
        }
    }
    io::write_all(1, b"\n");
}

fn answer(line: &[u8], a: &mut [u8], b: &mut [u8]) {
    if line.len() < 10 {
        return;
    }
    let n = get16(line, 0) * 65536 + get16(line, 2);
    let m = get16(line, 4) * 65536 + get16(line, 6);
    let end = 10 + get16(line, 8);
    if line.len() < end {
        return;
    }
    if a.len() < n {
        return;
    }
    if b.len() < m {
        return;
    }
    print_compared(&mut a[..n], &mut b[..m], &line[10..end], &line[end..]);
}

// Reads the whole input. A proved loop has to end, and nothing says that an input does: it counts down from a number that no run uses up.
fn read_all(bytes: &mut [u8], a: &mut [u8], b: &mut [u8], chunk: &mut [u8]) {
    let mut input = test_hex_lines::start();
    let mut turns = u64::MAX;
    while turns > 0 {
        input = test_hex_lines::next_line(bytes, chunk, input);
        if !input.found {
            return;
        }
        let len = input.len;
        answer(&bytes[..len], a, b);
        turns -= 1;
    }
}

fn main() {
    let mut bytes = [0u8; 8192];
    let mut a = [7u8; 65540];
    let mut b = [9u8; 65540];
    let mut chunk = io::large_buffer();
    read_all(&mut bytes, &mut a, &mut b, &mut chunk);
}
