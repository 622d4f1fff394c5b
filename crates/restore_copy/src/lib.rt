// Restore of a snapshot by copying: most snapshots are of images that a restore leaves as they are.
#![tactic(auto)]

mod copies;

ghost use Rattle.std.specs.Prelude.{◌≡◌, true, ◌≤◌, length};
ghost use Rattle.model.specs.Image.{head_size, is_image};
ghost use Rattle.restore_copy.specs.Rebuild.{Steady, Rebuilt};

use copies::copy_image;
use header::{HEAD_SIZE, NO_EPOCH, epoch_in, used_in};
use image_entries::tail_start;
use model::answers::Answer;
use restore_settled::{has_no_level, is_settled};

// The first epoch that is negative, by its bytes.
const NEGATIVE: u64 = 0x8000_0000_0000_0000;

// Whether a restore leaves an image as it is: no empty group, settled entries, and an epoch that is not negative, or is -1 where there is no level.
fn is_steady(image: &[u8]) -> bool
    requires { is_image image.now ≡ true }
    ensures { Steady image.now result }
{
    let used = used_in(image);
    if tail_start(&image[HEAD_SIZE..used]) != used - HEAD_SIZE {
        return false;
    }
    if !is_settled(&image[HEAD_SIZE..used]) {
        return false;
    }
    let epoch = epoch_in(image);
    if epoch < NEGATIVE {
        return true;
    }
    if epoch != NO_EPOCH {
        return false;
    }
    has_no_level(&image[HEAD_SIZE..used])
}

// Whether some bytes are the snapshot of an image that a restore leaves as it is. `w` is for the snapshot.
fn is_snapshot_of(image: &[u8], w: &mut [u8], input: &[u8]) -> bool
    ensures { Rebuilt input.now image.now result }
{
    match snapshot::snapshot(image, w) {
        Answer::Refused(number) => false,
        Answer::Used(n) => {
            if w.len() < n {
                return false;
            }
            if !wire::same(&w[..n], input) {
                return false;
            }
            is_steady(image)
        }
    }
}

// Makes a buffer the image that some bytes restore to, where they are the snapshot of one that a restore leaves as it is, and says whether it did. The
// image is made by copying, and then tested.
pub fn rebuild(image: &mut [u8], w: &mut [u8], input: &[u8]) -> bool
    requires { head_size ≤ length image.old }
    ensures { Rebuilt input.now image.new result }
{
    copy_image(image, input);
    is_snapshot_of(image, w, input)
}
