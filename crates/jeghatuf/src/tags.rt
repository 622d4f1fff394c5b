// A record's fields for programs in other languages, by their tags.
ghost use Rattle.std.specs.Prelude.{◌≡◌, drop};
ghost use Rattle.model.specs.Run.{run_of};
ghost use Rattle.fields.specs.Fields.{place_of};
ghost use Rattle.packing.specs.Packed.{filled};
ghost use Rattle.jeghatuf.specs.Field.{is_found, places_of};

use fields::Found;
use packing::put_both;
use reader::find;
use wire::size;

// Whether there is a field of a tag from the place `at` on: 1, and in the first two of `place` the place of its value and how long that is; or 0. Of a
// record's bytes the fields begin at 3; behind a value the next one of its tag is found, and in a nested value, which ends the bytes, the fields of that.
#[unsafe(no_mangle)]
pub extern "C" fn jeghatuf_field(bytes: &[u8], at: usize, tag: u8, place: &mut [u64]) -> u64
    ensures value { result ≡ is_found (place_of tag at (run_of (drop at bytes.now))) }
    ensures place_after { place.new ≡ filled (places_of (place_of tag at (run_of (drop at bytes.now)))) place.old }
{
    match find(bytes, at, size(tag)) {
        Found::Part { start, len } => {
            put_both(place, start as u64, len as u64);
            1
        }
        Found::Missing => 0,
    }
}
