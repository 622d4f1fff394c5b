// The steps of a history that move an image, as the theorem has them: a record that is given, and a cut.
#![tactic(auto)]

ghost use Rattle.std.specs.Prelude.{◌≡◌, eqb};
ghost use Rattle.model.specs.History.{judged, image_after, cut_image};
ghost use Rattle.model.specs.Snapshot.{snapshot_of};
ghost use Rattle.steps.specs.Steps.{verdict_of};

use model::answers::Answer;

// What Validate says, and where that is 0 what Apply says, else 0.
#[derive(Clone, Copy)]
pub struct Said {
    pub validate: u8,
    pub apply: u8,
}

// Gives a record to Validate and, where that says 0, to Apply at its log offset.
pub fn give(image: &mut [u8], offset: u64, input: &[u8]) -> Said
    ensures result_value { verdict_of result ≡ judged offset input.now image.old }
    ensures image_after { image.new ≡ image_after offset input.now image.old }
{
    let validate = validate::validate(image, input);
    if validate != 0 {
        return Said { validate, apply: 0 };
    }
    let apply = apply::apply(image, offset, input);
    Said { validate, apply }
}

// A restart: a snapshot into `out`, and the image restored from it in its own buffer. Whether there was one: else the image stays, and `out` too.
pub fn cut(image: &mut [u8], out: &mut [u8]) -> bool
    ensures value { result ≡ eqb (snapshot_of image.old out.old).reply.number 0 }
    ensures image_after { image.new ≡ cut_image out.old image.old image.old }
    ensures out_after { out.new ≡ (snapshot_of image.old out.old).buffer }
{
    match snapshot::snapshot(image, out) {
        Answer::Used(n) => {
            restore::restore(image, &out[..n]);
            true
        }
        Answer::Refused(number) => false,
    }
}
