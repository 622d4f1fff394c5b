// Validate: what stands against a record. It changes nothing.
#![tactic(auto)]

ghost use Rattle.std.specs.Prelude.{◌≡◌};
ghost use Rattle.model.specs.Validate.{validate_of};
ghost use Rattle.model.specs.Answers.{number_reply};

use find::reals_end;
use header::HEAD_SIZE;
use image::is_image;
use judge::judge;
use model::answers::Answer;
use model::refusals::NO_IMAGE;
use records::read_logged;

// The number of the first refusal of the record at the start of `input`, 0 where there is none. Later bytes are not looked at.
pub fn validate(image: &[u8], input: &[u8]) -> u8
    ensures { number_reply result ≡ validate_of image.now input.now }
{
    if !is_image(image) {
        return NO_IMAGE;
    }
    match read_logged(input) {
        Answer::Refused(number) => number,
        Answer::Used(n) => {
            let end = reals_end(image);
            judge(&image[HEAD_SIZE..end], &input[..n])
        }
    }
}
