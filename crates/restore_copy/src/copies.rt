// The image that some records would be a snapshot of, by copying. Nothing is promised of it but that it stays in its buffer: it is tested afterwards.
ghost use Rattle.std.specs.Prelude.{◌+◌, ◌≤◌, ◌<◌, length};
ghost use Rattle.model.specs.Image.{head_size};

use header::{HEAD_SIZE, NO_EPOCH, NO_OFFSET, put_header};
use model::kinds;

// Where the entries end so far, and the fixed parts so far.
#[derive(Clone, Copy)]
struct Copied {
    end: usize,
    epoch: u64,
    kraft: u64,
    offset: u64,
}

// How many bytes the record at a place has, at most all that are left.
fn size_at(input: &[u8], at: usize) -> usize
    requires { at < length input.now }
    ensures { (1 ≤ result) × (at + result ≤ length input.now) }
{
    let left = input.len() - at;
    if left < 3 {
        return left;
    }
    let size = 3 + wire::get16(input, at + 1);
    if left < size {
        return left;
    }
    size
}

// Copies some bytes to a place. Where they end; the buffer's end where they do not fit.
fn put(image: &mut [u8], at: usize, bytes: &[u8]) -> usize
    requires { at ≤ length image.old }
    ensures { (at ≤ result) × (result ≤ length image.old) }
{
    if image.len() - at < bytes.len() {
        return image.len();
    }
    wire::copy(image, at, bytes);
    at + bytes.len()
}

// Copies a topic's record to a place, with its id named for it.
fn put_topic(image: &mut [u8], at: usize, rec: &[u8]) -> usize
    requires { at ≤ length image.old }
    ensures { (at ≤ result) × (result ≤ length image.old) }
{
    let flag = put(image, at, rec);
    let end = put(image, flag, b"\x05\x00\x05\x00\x00\x00\x00\x01");
    if end - at < 3 {
        return end;
    }
    wire::put(image, at + 1, 2, (end - at - 3) as u64);
    end
}

// The number of a record whose one field is a number.
fn number_in(rec: &[u8]) -> u64 {
    if rec.len() < 6 {
        return 0;
    }
    let width = rec.len() - 6;
    if 8 < width {
        return 0;
    }
    wire::get(rec, 6, width)
}

// Copies one record: a topic (1) with its flag, the kraft version (10), the epoch (13) and the log offset (26) as
// numbers, all others as they are.
fn copy_record(image: &mut [u8], copied: Copied, rec: &[u8]) -> Copied
    requires { copied.end ≤ length image.old }
    ensures { result.end ≤ length image.old }
{
    let end = copied.end;
    let epoch = copied.epoch;
    let kraft = copied.kraft;
    let offset = copied.offset;
    if rec.len() == 0 {
        return copied;
    }
    match rec[0] {
        kinds::TOPIC => Copied {
            end: put_topic(image, end, rec),
            epoch,
            kraft,
            offset,
        },
        kinds::KRAFT_VERSION => Copied {
            end,
            epoch,
            kraft: number_in(rec),
            offset,
        },
        kinds::FEATURES_EPOCH => Copied {
            end,
            epoch: number_in(rec),
            kraft,
            offset,
        },
        kinds::LOG_OFFSET => Copied {
            end,
            epoch,
            kraft,
            offset: number_in(rec),
        },
        0 | 2..=9 | 11 | 12 | 14..=25 | 27..=255 => Copied {
            end: put(image, end, rec),
            epoch,
            kraft,
            offset,
        },
    }
}

// Copies all records behind the header's place.
fn copy_records(image: &mut [u8], input: &[u8]) -> Copied
    requires { head_size ≤ length image.old }
    ensures { result.end ≤ length image.old }
{
    let mut copied = Copied {
        end: HEAD_SIZE,
        epoch: NO_EPOCH,
        kraft: 0,
        offset: NO_OFFSET,
    };
    let mut at = 0;
    while at < input.len() {
        let end = at + size_at(input, at);
        copied = copy_record(image, copied, &input[at..end]);
        at = end;
    }
    copied
}

// Makes a buffer the image that some records would be a snapshot of.
pub fn copy_image(image: &mut [u8], input: &[u8])
    requires { head_size ≤ length image.old }
{
    let copied = copy_records(image, input);
    let end = copied.end;
    wire::clear(&mut image[end..]);
    put_header(image, end, copied.epoch, copied.kraft, copied.offset);
}
