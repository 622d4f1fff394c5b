// A quota's value.
use access::{QuotaValue, quota_value};
use quota::{Quota, Whole, to_bits, whole_number};
use std::io::Stdout;
use tool_words::{say, say_bits, say_integer};

// A whole number as such, any other value by its bits.
fn say_value(stdout: Stdout, quota: Quota) -> bool {
    match whole_number(quota) {
        Whole::Is(n) => say_integer(stdout, n),
        Whole::None => say_bits(stdout, to_bits(quota)),
    }
}

// The value of a quota record.
pub fn say_limit(stdout: Stdout, rec: &[u8]) -> bool {
    match quota_value(rec) {
        QuotaValue::Is(quota) => say_value(stdout, quota),
        QuotaValue::Missing => say(stdout, b"none"),
    }
}
