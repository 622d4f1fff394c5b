// The freeze from a run of records for programs in other languages. `unpacked` (`specs/Unpacked.antt`) is what its packed answer gives back.
ghost use Rattle.std.specs.Prelude.{◌≡◌, ◌*◌};
ghost use Rattle.model.specs.LogFreeze.{log_freeze_of};
ghost use Rattle.packing.specs.Packed.{widened};

use model::answers::RunAnswer;
use packing::{alone, put_first};

// The freeze of a name from a run of records, whose place in the log may stand first. In the first of `value`: the bytes written, or the place of the
// record that is refused.
#[unsafe(no_mangle)]
pub extern "C" fn jeghatuf_log_freeze(
    run: &[u8],
    name: &[u8],
    out: &mut [u8],
    value: &mut [u64],
) -> u64
    ensures value { result ≡ (log_freeze_of run.now name.now out.old).reply.number * 4294967296 }
    ensures out_after { out.new ≡ (log_freeze_of run.now name.now out.old).buffer }
    ensures value_after { value.new ≡ widened (log_freeze_of run.now name.now out.old).reply value.old }
{
    match log_freeze::log_freeze(run, name, out) {
        RunAnswer::Written(n) => {
            put_first(value, n as u64);
            0
        }
        RunAnswer::Refused(number) => alone(number),
        RunAnswer::Stopped(number, at) => {
            put_first(value, at as u64);
            alone(number)
        }
    }
}
