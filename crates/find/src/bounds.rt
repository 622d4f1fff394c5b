// The real entries of an image, and its weight.
ghost use Rattle.std.specs.Prelude.{◌≡◌, true};
ghost use Rattle.model.specs.Contents.{weight};
ghost use Rattle.model.specs.Image.{is_image, contents_of};
ghost use Rattle.find.specs.Reals.{Reals};

use header::{HEAD_SIZE, used_in};
use image::weight_of;
use image_entries::tail_start;

// Where they end; they begin after the header.
pub fn reals_end(image: &[u8]) -> usize
    requires { is_image image.now ≡ true }
    ensures { Reals image.now result }
{
    let used = used_in(image);
    HEAD_SIZE + tail_start(&image[HEAD_SIZE..used])
}

// What the contents of an image weigh.
pub fn weight(image: &[u8]) -> usize
    requires { is_image image.now ≡ true }
    ensures { result ≡ weight (contents_of image.now) }
{
    let end = reals_end(image);
    let used = used_in(image);
    weight_of(&image[HEAD_SIZE..end], used - HEAD_SIZE)
}
