// Standard input, line by line in hexadecimal, and bytes on standard output. Lines that have a '#' are passed over, and so is what is no digit of 0 to 9
// and a to f.
#![tactic(auto)]

ghost use Rattle.std.specs.Prelude.{◌≡◌, false, ◌+◌, ◌*◌, ◌%◌, ◌≤◌, length};
ghost use Rattle.test_hex_lines.specs.Line.{digit_of, held_in, after_digit, after_byte};

// In place of a digit where there is none.
const NO_DIGIT: u8 = 16;

// The line so far: how many bytes, the first digit of the next one, whether it is passed over, and whether its end is there.
#[derive(Drop)]
pub struct Line {
    len: usize,
    upper: u8,
    passed: bool,
    ended: bool,
}

// Where the input stands: the chunk's bytes from `at` to `end` are still to be taken. `found`: the last line's bytes are the first `len`.
#[derive(Drop)]
pub struct Input {
    pub at: usize,
    pub end: usize,
    pub found: bool,
    pub len: usize,
}

// An input with the bytes from `at` to `end` still to be taken, and no line found.
fn unread(at: usize, end: usize) -> Input
    ensures { (result.at ≡ at) × (result.end ≡ end) × (result.found ≡ false) × (result.len ≡ 0) }
{
    Input {
        at,
        end,
        found: false,
        len: 0,
    }
}

// The input before its first line, and after its last.
pub fn start() -> Input
    ensures { (result.at ≡ 0) × (result.end ≡ 0) × (result.found ≡ false) × (result.len ≡ 0) }
{
    unread(0, 0)
}

// A line before its first byte.
fn begin() -> Line
    ensures { (result.len ≡ 0) × (result.upper ≡ 16) × (result.passed ≡ false) × (result.ended ≡ false) }
{
    Line {
        len: 0,
        upper: NO_DIGIT,
        passed: false,
        ended: false,
    }
}

// The value of a hexadecimal digit.
fn digit(b: u8) -> u8
    ensures { result ≡ digit_of b }
{
    if b < b'0' {
        return NO_DIGIT;
    }
    if b <= b'9' {
        return b - b'0';
    }
    if b < b'a' {
        return NO_DIGIT;
    }
    if b <= b'f' {
        return b - b'a' + 10;
    }
    NO_DIGIT
}

// The byte of two digits.
fn joined(upper: u8, lower: u8) -> u8
    ensures { result ≡ upper % 16 * 16 + lower % 16 }
{
    upper % 16 * 16 + lower % 16
}

// The line after a digit. Bytes that `bytes` has no room for are lost.
fn take_digit(bytes: &mut [u8], line: Line, d: u8) -> Line
    requires { line.len ≤ length bytes.old }
    ensures len_in_bounds { result.len ≤ length bytes.new }
    ensures result_after { held_in bytes.new result ≡ after_digit (length bytes.old) (held_in bytes.old line) d }
{
    let len = line.len;
    if line.upper == NO_DIGIT {
        return Line {
            len,
            upper: d,
            passed: line.passed,
            ended: line.ended,
        };
    }
    if len == bytes.len() {
        return Line {
            len,
            upper: NO_DIGIT,
            passed: line.passed,
            ended: line.ended,
        };
    }
    bytes[len] = joined(line.upper, d);
    Line {
        len: len + 1,
        upper: NO_DIGIT,
        passed: line.passed,
        ended: line.ended,
    }
}

// The line after a byte of the input. A line that is passed over is followed by the next one.
fn take_byte(bytes: &mut [u8], line: Line, b: u8) -> Line
    requires { line.len ≤ length bytes.old }
    ensures len_in_bounds { result.len ≤ length bytes.new }
    ensures result_after { held_in bytes.new result ≡ after_byte (length bytes.old) (held_in bytes.old line) b }
{
    let len = line.len;
    if b == b'\n' {
        if line.passed {
            return begin();
        }
        return Line {
            len,
            upper: line.upper,
            passed: line.passed,
            ended: true,
        };
    }
    if b == b'#' {
        return Line {
            len,
            upper: line.upper,
            passed: true,
            ended: line.ended,
        };
    }
    if line.passed {
        return line;
    }
    let d = digit(b);
    if d == NO_DIGIT {
        return line;
    }
    take_digit(bytes, line, d)
}

// The input with a byte to take in the chunk, unless it is at its end.
fn refill(chunk: &mut [u8], input: Input) -> Input
    ensures { (result.at ≤ result.end) × (result.end ≤ length chunk.new) }
{
    if input.at < input.end && input.end <= chunk.len() {
        return input;
    }
    let got = io::read_full(0, chunk);
    unread(0, got)
}

// Reads the next line into `bytes`. A last line that has no end is not found. A proved loop has to end, and nothing says that an input does: it
// counts down from a number that no run uses up.
pub fn next_line(bytes: &mut [u8], chunk: &mut [u8], input: Input) -> Input
    ensures { (result.len ≤ length bytes.new) × (result.at ≤ result.end) × (result.end ≤ length chunk.new) }
{
    let mut line = begin();
    let mut rest = input;
    let mut turns = u64::MAX;
    while turns > 0 {
        rest = refill(chunk, rest);
        let at = rest.at;
        let end = rest.end;
        if at == end {
            return start();
        }
        line = take_byte(bytes, line, chunk[at]);
        if line.ended {
            return Input {
                at: at + 1,
                end,
                found: true,
                len: line.len,
            };
        }
        rest = unread(at + 1, end);
        turns -= 1;
    }
    start()
}

// A byte as a wide number.
fn wide(x: u8) -> u64 {
    x as u64
}

// Bytes on standard output, two digits to each.
pub fn print_bytes(bytes: &[u8]) {
    let mut i = 0;
    while i < bytes.len() {
        io::print_hex(1, wide(bytes[i]), 2);
        i += 1;
    }
}
