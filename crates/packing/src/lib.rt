// An answer in one number: 01's number in the upper half of a word, and the value that comes with it in the lower half.
#![tactic(auto)]

pub mod kinds;

ghost use Rattle.std.specs.Prelude.{[], ◌∷◌, ◌≡◌, ◌*◌};
ghost use Rattle.model.specs.Answers.{replied};
ghost use Rattle.packing.specs.Packed.{packed, first_is, filled};

use model::answers::Answer;
use wire::wide;

// A number with which no value comes.
pub fn alone(number: u8) -> u64
    ensures { result ≡ number * 4294967296 }
{
    wide(number) * 0x1_0000_0000
}

// The bytes used or written, or a refusal's number.
pub fn pack(answer: Answer) -> u64
    ensures { result ≡ packed (replied answer) }
{
    match answer {
        Answer::Used(n) => n as u64,
        Answer::Refused(number) => alone(number),
    }
}

// Puts a number into the first place of a list, where it has one.
pub fn put_first(list: &mut [u64], n: u64)
    ensures { list.new ≡ first_is (n ∷ []) list.old }
{
    if list.len() > 0 {
        list[0] = n;
    }
}

// Puts two numbers into the first two places of a list, where it has them.
pub fn put_both(list: &mut [u64], first: u64, second: u64)
    ensures { list.new ≡ filled (first ∷ second ∷ []) list.old }
{
    put_first(list, first);
    if list.len() > 1 {
        list[1] = second;
    }
}
