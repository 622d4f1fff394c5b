// Lookups of a list of names for programs in other languages. `unpacked` (`specs/Unpacked.antt`) is what their packed answers give back.
ghost use Rattle.std.specs.Prelude.{◌≡◌};
ghost use Rattle.model.specs.FreezeList.{freeze_list_of};
ghost use Rattle.packing.specs.Packed.{packed, beside};

use model::answers::Counted;
use packing::{alone, put_first};

// The freezes of a list of names in ascending order, each name as a length of two bytes and its bytes. Two bytes to a name: its freeze's index among the
// stored ones, hex FFFF for none. The bytes written, and in the first of `read` how many stored freezes were read.
#[unsafe(no_mangle)]
pub extern "C" fn jeghatuf_freezes(
    image: &[u8],
    list: &[u8],
    out: &mut [u8],
    read: &mut [u64],
) -> u64
    ensures value { result ≡ packed (freeze_list_of image.now list.now out.old).reply }
    ensures out_after { out.new ≡ (freeze_list_of image.now list.now out.old).buffer }
    ensures read_after { read.new ≡ beside (freeze_list_of image.now list.now out.old).reply read.old }
{
    match lookup_freeze_list::freeze_list(image, list, out) {
        Counted::Written(n, count) => {
            put_first(read, count);
            n as u64
        }
        Counted::Refused(number) => alone(number),
    }
}
