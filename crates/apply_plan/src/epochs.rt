// The features epoch after a feature level.
ghost use Rattle.std.specs.Prelude.{◌≡◌};
ghost use Rattle.model.specs.Move.{bumped};

// The lowest negative epoch, as the unsigned number of the same bytes.
const NEGATIVE: u64 = 0x8000_0000_0000_0000;

// One more, 0 where that is negative, the highest where it is the highest already.
pub fn bump(epoch: u64) -> u64
    ensures { result ≡ bumped epoch }
{
    if NEGATIVE <= epoch {
        return 0;
    }
    if epoch + 1 < NEGATIVE {
        return epoch + 1;
    }
    epoch
}
