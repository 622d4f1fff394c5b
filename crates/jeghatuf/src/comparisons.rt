// Two runs of records held against each other, for programs in other languages. `unpacked` (`specs/Unpacked.antt`) is what the packed answer gives back.
ghost use Rattle.std.specs.Prelude.{◌≡◌};
ghost use Rattle.model.specs.Recordings.{compare_of};
ghost use Rattle.packing.specs.Packed.{packed, beside};

use model::answers::Compared;
use packing::{alone, put_first};

// Where two recordings part, from fresh images in both buffers on, which have one capacity: 1 where they part and 0 where they agree, and in the first of
// `value` the count of records up to there. Both buffers are the images after that count.
#[unsafe(no_mangle)]
pub extern "C" fn jeghatuf_compare(
    first: &mut [u8],
    second: &mut [u8],
    one: &[u8],
    other: &[u8],
    value: &mut [u64],
) -> u64
    ensures value { result ≡ packed (compare_of first.old second.old one.now other.now).reply }
    ensures first_after { first.new ≡ (compare_of first.old second.old one.now other.now).first }
    ensures second_after { second.new ≡ (compare_of first.old second.old one.now other.now).second }
    ensures value_after { value.new ≡ beside (compare_of first.old second.old one.now other.now).reply value.old }
{
    match recordings::compare(first, second, one, other) {
        Compared::Parted(k) => {
            put_first(value, k);
            1
        }
        Compared::Agree(k) => {
            put_first(value, k);
            0
        }
        Compared::Refused(number) => alone(number),
    }
}
