// The header of an image: its mark and version, the used length, the features epoch, the kraft version and the log offset. And Open, which
// writes a fresh one.
#![tactic(auto)]

ghost use Rattle.std.specs.Prelude.{◌≡◌, ◌++◌, ◌<◌, ◌≤◌, length, drop};
ghost use Rattle.model.specs.Number.{span};
ghost use Rattle.model.specs.Image.{is_capacity, head_size, header, used_in, fixed_in, header_ok, open_of};
ghost use Rattle.model.specs.Answers.{number_reply};
ghost use Rattle.header.specs.Header.{fixed_of, front_ok};

use model::refusals::NO_IMAGE;

// The header's size, and the least and the greatest capacity.
pub const HEAD_SIZE: usize = 64;

const LEAST_CAPACITY: usize = 144;

const MOST_CAPACITY: usize = 65536;

// The epoch before any, -1, by its bytes.
pub const NO_EPOCH: u64 = 0xffff_ffff_ffff_ffff;

// The log offset before any record is applied, -1, by its bytes.
pub const NO_OFFSET: u64 = 0xffff_ffff_ffff_ffff;

// Whether a buffer of `n` bytes can hold an image.
pub fn is_capacity(n: usize) -> bool
    ensures { result ≡ is_capacity n }
{
    LEAST_CAPACITY <= n && n <= MOST_CAPACITY
}

// The used length, as the header has it.
pub fn used_in(b: &[u8]) -> usize
    requires { head_size ≤ length b.now }
    ensures { (result ≡ used_in b.now) × (result < span 4) }
{
    wire::get(b, 8, 4) as usize
}

// The features epoch, by its bytes.
pub fn epoch_in(b: &[u8]) -> u64
    requires { head_size ≤ length b.now }
    ensures { result ≡ (fixed_in b.now).epoch }
{
    wire::get(b, 16, 8)
}

// The kraft version, by its bytes.
pub fn kraft_in(b: &[u8]) -> u64
    requires { head_size ≤ length b.now }
    ensures { result ≡ (fixed_in b.now).kraft }
{
    wire::get(b, 24, 2)
}

// The log offset of the last record applied, by its bytes.
pub fn offset_in(b: &[u8]) -> u64
    requires { head_size ≤ length b.now }
    ensures { result ≡ (fixed_in b.now).offset }
{
    wire::get(b, 56, 8)
}

// Whether the mark, the version and the zeros of the header stand.
fn front_ok(b: &[u8]) -> bool
    requires { head_size ≤ length b.now }
    ensures { result ≡ front_ok b.now }
{
    if !wire::same(&b[0..8], b"KRABKA\x00\x02") {
        return false;
    }
    if !wire::is_clear(&b[12..16]) {
        return false;
    }
    wire::is_clear(&b[26..56])
}

// Whether the header stands, its used length is within the bytes, the bytes past it are zero, and the log offset is one.
pub fn header_ok(b: &[u8]) -> bool
    requires { head_size ≤ length b.now }
    ensures { result ≡ header_ok b.now }
{
    if !front_ok(b) {
        return false;
    }
    let used = used_in(b);
    if used < HEAD_SIZE {
        return false;
    }
    if b.len() < used {
        return false;
    }
    if !wire::is_clear(&b[used..]) {
        return false;
    }
    wire::is_offset(offset_in(b))
}

// Writes a header.
pub fn put_header(b: &mut [u8], used: usize, epoch: u64, kraft: u64, offset: u64)
    requires { head_size ≤ length b.old }
    ensures { b.new ≡ header used (fixed_of epoch kraft offset) ++ drop head_size b.old }
{
    wire::copy(b, 0, b"KRABKA\x00\x02");
    wire::put(b, 8, 4, used as u64);
    wire::put(b, 12, 4, 0);
    wire::put(b, 16, 8, epoch);
    wire::put(b, 24, 2, kraft);
    wire::put(b, 26, 30, 0);
    wire::put(b, 56, 8, offset);
}

// Open: a fresh image in a buffer of 144 to 65,536 bytes, whatever it held. 0, or 1 and nothing is changed.
pub fn open(b: &mut [u8]) -> u8
    ensures result_value { number_reply result ≡ (open_of b.old).reply }
    ensures b_after { b.new ≡ (open_of b.old).buffer }
{
    if !is_capacity(b.len()) {
        return NO_IMAGE;
    }
    wire::clear(b);
    put_header(b, HEAD_SIZE, NO_EPOCH, 0, NO_OFFSET);
    0
}
