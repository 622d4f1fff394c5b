// A plan's partitions as the firm knows them: partition 0 is the room list, partition 1 the load sheet.
use std::io::Stdout;
use tool_words::parts::{number_in, say_signed_in, say_text};
use tool_words::say;

pub const ROOM_LIST: u64 = 0;

pub const LOAD_SHEET: u64 = 1;

// The sheet behind a partition's number, where it is one.
fn say_sheet(stdout: Stdout, number: u64) -> bool {
    match number {
        ROOM_LIST => say(stdout, b" (room list)"),
        LOAD_SHEET => say(stdout, b" (load sheet)"),
        _ => true,
    }
}

// A partition's number, in its second field, and its sheet.
pub fn say_number_and_sheet(stdout: Stdout, words: &[u8], run: &[u8]) -> bool {
    say_signed_in(stdout, words, run, 2) && say_sheet(stdout, number_in(run, 2))
}

// A partition, by its number and its topic, in the first two fields.
pub fn say_partition(stdout: Stdout, run: &[u8]) -> bool {
    say_number_and_sheet(stdout, b"partition ", run)
        && say(stdout, b" of ")
        && say_text(stdout, run, 1)
}
