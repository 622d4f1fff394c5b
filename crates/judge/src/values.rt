// A refusal by a test, and the first of two.
ghost use Rattle.std.specs.Prelude.{◌≡◌};
ghost use Rattle.model.specs.Choice.{or_then, unless as unless_of};

// A refusal where a test fails.
pub fn unless(passes: bool, refusal: u8) -> u8
    ensures { result ≡ unless_of passes refusal }
{
    if passes {
        return 0;
    }
    refusal
}

// The first refusal of two, 0 where there is none.
pub fn or_then(first: u8, second: u8) -> u8
    ensures { result ≡ or_then first second }
{
    if first == 0 {
        return second;
    }
    first
}
