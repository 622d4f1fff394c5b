// What the operations answer with. What 01's number and values are then stands in specs/Answers.

// Bytes used or written, or a refusal's number.
#[derive(Clone, Copy)]
pub enum Answer {
    Used(usize),
    Refused(u8),
}

// A number, or a refusal's.
#[derive(Clone, Copy)]
pub enum Value {
    Is(u64),
    Refused(u8),
}

// A rate, none, or a refusal: none and 0 differ.
#[derive(Clone, Copy)]
pub enum Rated {
    Rate(u64),
    None,
    Refused(u8),
}

// Done, a refusal, or a record's refusal with the place of its first byte.
#[derive(Clone, Copy)]
pub enum Restored {
    Done,
    Refused(u8),
    Stopped(u8, usize),
}

// Bytes written, a refusal, or a record's refusal with the place of its first byte.
#[derive(Clone, Copy)]
pub enum RunAnswer {
    Written(usize),
    Refused(u8),
    Stopped(u8, usize),
}

// The same, with the log offset beside the bytes written.
#[derive(Clone, Copy)]
pub enum Separated {
    Written(usize, u64),
    Refused(u8),
    Stopped(u8, usize),
}

// Two recordings part at a count, or agree up to it; or a refusal's number.
#[derive(Clone, Copy)]
pub enum Compared {
    Parted(u64),
    Agree(u64),
    Refused(u8),
}

// Bytes written with a count beside them, or a refusal's number.
#[derive(Clone, Copy)]
pub enum Counted {
    Written(usize, u64),
    Refused(u8),
}
