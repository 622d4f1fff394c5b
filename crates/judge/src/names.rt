// Which names a topic's record may have.
ghost use Rattle.std.specs.Prelude.{◌≡◌};
ghost use Rattle.model.specs.Choice.{every};
ghost use Rattle.model.specs.Text.{within, to};
ghost use Rattle.model.specs.Validate.{is_name_byte, lawful_name};

// The longest name's bytes.
const MOST_NAME: usize = 249;

// Whether a byte is one from the first to the last, both included.
fn is_within(first: u8, last: u8, b: u8) -> bool
    ensures { result ≡ within (to first last) b }
{
    if b < first {
        return false;
    }
    b <= last
}

// Whether a byte is an ASCII letter or digit, ".", "_" or "-".
fn is_name_byte(b: u8) -> bool
    ensures { result ≡ is_name_byte b }
{
    if is_within(b'a', b'z', b) {
        return true;
    }
    if is_within(b'A', b'Z', b) {
        return true;
    }
    if is_within(b'0', b'9', b) {
        return true;
    }
    if b == b'.' {
        return true;
    }
    if b == b'_' {
        return true;
    }
    b == b'-'
}

// Whether every byte is one of these.
fn are_name_bytes(s: &[u8]) -> bool
    ensures { result ≡ every is_name_byte s.now }
{
    let mut i = 0;
    while i < s.len() {
        if !is_name_byte(s[i]) {
            return false;
        }
        i += 1;
    }
    true
}

// Whether a name is lawful: 1 to 249 of these bytes, and neither "." nor "..".
pub fn is_lawful(name: &[u8]) -> bool
    ensures { result ≡ lawful_name name.now }
{
    if name.len() < 1 {
        return false;
    }
    if MOST_NAME < name.len() {
        return false;
    }
    if !are_name_bytes(name) {
        return false;
    }
    if wire::same(name, b".") {
        return false;
    }
    !wire::same(name, b"..")
}
