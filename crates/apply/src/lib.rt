// Apply: what a record makes of an image, or a refusal that changes nothing.
#![tactic(auto)]

ghost use Rattle.std.specs.Prelude.{◌≡◌, true, length};
ghost use Rattle.model.specs.Image.{is_image, contents_of};
ghost use Rattle.model.specs.Apply.{apply as applied, dated_by, is_later, apply_at, laid, apply_of};
ghost use Rattle.model.specs.Answers.{number_reply};
ghost use Rattle.find.specs.Logged.{IsLogged, logged_in};

use apply_step::try_in;
use apply_work::{Tried, lay};
use header::offset_in;
use image::is_image;
use model::answers::Answer;
use model::refusals::{NO_IMAGE, NOT_LATER};
use records::read_logged;
use wire::place;

// Whether a log offset is above the stored one, both signed.
fn is_later(before: u64, offset: u64) -> bool
    ensures { result ≡ is_later before offset }
{
    place(before) < place(offset)
}

// Applies a record that Read accepts to an image, which has the log offset given afterwards.
fn apply_record(image: &mut [u8], offset: u64, rec: &[u8]) -> u8
    requires { (is_image image.old ≡ true) × IsLogged rec.now }
    ensures result_value { number_reply result ≡ (laid image.old (dated_by offset (applied (length image.old) (logged_in rec.now) (contents_of image.old)))).reply }
    ensures image_after { image.new ≡ (laid image.old (dated_by offset (applied (length image.old) (logged_in rec.now) (contents_of image.old)))).buffer }
{
    let mut w = [0; 167936];
    let mut a = [0; 40960];
    let mut b = [0; 40960];
    match try_in(&mut w, &mut a, &mut b, image, rec) {
        Tried::Refused(number) => number,
        Tried::Moved(s) => {
            lay(image, &w, s.bounds, s.epoch, s.kraft, offset);
            0
        }
    }
}

// The same where the offset is above the image's; else 21.
pub fn apply_later(image: &mut [u8], offset: u64, rec: &[u8]) -> u8
    requires { (is_image image.old ≡ true) × IsLogged rec.now }
    ensures result_value { number_reply result ≡ (laid image.old (apply_at (length image.old) offset (logged_in rec.now) (contents_of image.old))).reply }
    ensures image_after { image.new ≡ (laid image.old (apply_at (length image.old) offset (logged_in rec.now) (contents_of image.old))).buffer }
{
    if !is_later(offset_in(image), offset) {
        return NOT_LATER;
    }
    apply_record(image, offset, rec)
}

// Applies the record at the start of `input` to an image, at its log offset, an i64 by its bits. 0, or the number of a refusal, which changes
// nothing. Later bytes are not looked at.
pub fn apply(image: &mut [u8], offset: u64, input: &[u8]) -> u8
    ensures result_value { number_reply result ≡ (apply_of image.old offset input.now).reply }
    ensures image_after { image.new ≡ (apply_of image.old offset input.now).buffer }
{
    if !is_image(image) {
        return NO_IMAGE;
    }
    match read_logged(input) {
        Answer::Refused(number) => number,
        Answer::Used(n) => apply_later(image, offset, &input[..n]),
    }
}
