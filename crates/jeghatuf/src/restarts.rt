// Snapshot, Restore and the records of a downgrade for programs in other languages. `unpacked` (`specs/Unpacked.antt`) is what their packed
// answers give back.
ghost use Rattle.std.specs.Prelude.{◌≡◌, ◌*◌};
ghost use Rattle.model.specs.Downgrade.{downgrade_of};
ghost use Rattle.model.specs.Snapshot.{snapshot_of, restore_of};
ghost use Rattle.packing.specs.Packed.{packed, widened};

use model::answers::Restored;
use packing::{alone, pack, put_first};

// An image's records into an output: the bytes written.
#[unsafe(no_mangle)]
pub extern "C" fn jeghatuf_snapshot(image: &[u8], out: &mut [u8]) -> u64
    ensures value { result ≡ packed (snapshot_of image.now out.old).reply }
    ensures out_after { out.new ≡ (snapshot_of image.now out.old).buffer }
{
    pack(snapshot::snapshot(image, out))
}

// Makes a buffer the image of the records of `input`. A record's refusal comes with its place, in the first of `place`.
#[unsafe(no_mangle)]
pub extern "C" fn jeghatuf_restore(image: &mut [u8], input: &[u8], place: &mut [u64]) -> u64
    ensures value { result ≡ (restore_of input.now image.old).reply.number * 4294967296 }
    ensures image_after { image.new ≡ (restore_of input.now image.old).buffer }
    ensures place_after { place.new ≡ widened (restore_of input.now image.old).reply place.old }
{
    match restore::restore(image, input) {
        Restored::Done => 0,
        Restored::Refused(number) => alone(number),
        Restored::Stopped(number, at) => {
            put_first(place, at as u64);
            alone(number)
        }
    }
}

// The records that take an image to a metadata level, by its 16 bits: the bytes written.
#[unsafe(no_mangle)]
pub extern "C" fn jeghatuf_downgrade(image: &[u8], level: u16, out: &mut [u8]) -> u64
    ensures value { result ≡ packed (downgrade_of image.now level out.old).reply }
    ensures out_after { out.new ≡ (downgrade_of image.now level out.old).buffer }
{
    pack(downgrade::downgrade(image, level, out))
}
