// What an operation answers, as a line of text: numbers with a space before each, behind the operation's place.
#![tactic(auto)]

ghost use Rattle.std.specs.Prelude.{◌≡◌};
ghost use Rattle.test_answer_lines.specs.Digest.{digest_of};

use model::answers::Answer;
use wire::wide;

// The digest's modulus, the greatest prime below 2^32, and its base.
const MODULUS: u64 = 4294967291;

const BASE: u64 = 257;

// The first number of a line.
pub fn print_first(n: u64) {
    io::print_decimal(1, n);
}

// A number that is not the first of its line.
pub fn print_next(n: u64) {
    io::write_all(1, b" ");
    io::print_decimal(1, n);
}

pub fn end_line() {
    io::write_all(1, b"\n");
}

// In place of an answer where a line is no operation.
pub fn print_no_line() {
    io::write_all(1, b" no line");
}

// The bytes as the digits of one number, modulo a prime.
fn digest(bytes: &[u8]) -> u64
    ensures { result ≡ digest_of bytes.now }
{
    let mut n = 0;
    let mut i = 0;
    while i < bytes.len() {
        n = (n * BASE + wide(bytes[i])) % MODULUS;
        i += 1;
    }
    n
}

// The used length, where there is room for a header, and the digest of the whole buffer.
pub fn print_buffer(buffer: &[u8]) {
    if header::HEAD_SIZE <= buffer.len() {
        print_next(header::used_in(buffer) as u64);
    }
    print_next(digest(buffer));
}

// What an operation that writes records answers: its number, and where that is 0 how many bytes it wrote and their digest.
pub fn print_written(answer: Answer, out: &[u8]) {
    match answer {
        Answer::Refused(number) => print_next(wide(number)),
        Answer::Used(n) => {
            print_next(0);
            print_next(n as u64);
            if n <= out.len() {
                print_next(digest(&out[..n]));
            }
        }
    }
}
