// What a line's operation answers, as text: numbers, and bytes in hexadecimal.
use model::answers::{Answer, Value};
use test_hex_lines::print_bytes;
use wire::{size, wide};

// The digest's modulus, a prime.
const MODULUS: usize = 65521;

// A text and the line's end.
pub fn print_line(text: &[u8]) {
    io::write_all(1, text);
    io::write_all(1, b"\n");
}

// A number with a space after it.
pub fn print_number(n: u64) {
    io::print_decimal(1, n);
    io::write_all(1, b" ");
}

// The bytes as the digits of one number to the base 257, modulo a prime.
fn digest(bytes: &[u8]) -> usize {
    let mut n = 0;
    let mut i = 0;
    while i < bytes.len() {
        n = (n % MODULUS * 257 + size(bytes[i])) % MODULUS;
        i += 1;
    }
    n
}

pub fn print_digest(bytes: &[u8]) {
    io::print_decimal(1, digest(bytes) as u64);
    io::write_all(1, b"\n");
}

// A lookup's number, the bytes written where it is 0, and these bytes.
pub fn print_answer(answer: Answer, out: &[u8]) {
    match answer {
        Answer::Used(n) => {
            print_number(0);
            print_number(n as u64);
            if n <= out.len() {
                print_bytes(&out[..n]);
            }
        }
        Answer::Refused(number) => {
            io::print_decimal(1, wide(number));
        }
    }
    io::write_all(1, b"\n");
}

// A lookup's number, and the value where it is 0.
pub fn print_value(value: Value) {
    match value {
        Value::Is(n) => {
            print_number(0);
            io::print_decimal(1, n);
        }
        Value::Refused(number) => {
            io::print_decimal(1, wide(number));
        }
    }
    io::write_all(1, b"\n");
}
