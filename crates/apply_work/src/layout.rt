// The image of what a work array holds.
ghost use Rattle.std.specs.Prelude.{◌≡◌, ◌+◌, ◌≤◌, length};
ghost use Rattle.model.specs.Image.{head_size, image_of};
ghost use Rattle.header.specs.Header.{fixed_of};
ghost use Rattle.apply_work.specs.Work.{Good, contents_in};

use crate::Bounds;
use header::{HEAD_SIZE, put_header};

// Lays the entries of a work array out as an image: its header, the entries, and zeros.
pub fn lay(image: &mut [u8], w: &[u8], bounds: Bounds, epoch: u64, kraft: u64, offset: u64)
    requires { Good w.now bounds × (head_size + bounds.used ≤ length image.old) }
    ensures { image.new ≡ image_of (length image.old) (contents_in w.now bounds (fixed_of epoch kraft offset)) }
{
    let used = bounds.used;
    let end = HEAD_SIZE + used;
    wire::copy(image, HEAD_SIZE, &w[..used]);
    wire::clear(&mut image[end..]);
    put_header(image, end, epoch, kraft, offset);
}
