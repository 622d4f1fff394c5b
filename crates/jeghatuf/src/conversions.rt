// A snapshot of the old form in the new one, and back, for programs in other languages. How long a run is has no limit, so that the values come in a
// lent list. `unpacked` (`specs/Unpacked.antt`) is what their packed answers give back.
ghost use Rattle.std.specs.Prelude.{◌≡◌, ◌*◌};
ghost use Rattle.model.specs.Convert.{with_offset_of, without_offset_of};
ghost use Rattle.packing.specs.Packed.{widened, filled};

use model::answers::{RunAnswer, Separated};
use packing::{alone, put_both, put_first};

// The new form of a run of the old one, at a log offset, an int64_t by its bits. In the first of `value`: the bytes written, or the place of the record
// that is refused.
#[unsafe(no_mangle)]
pub extern "C" fn jeghatuf_with_offset(
    run: &[u8],
    offset: u64,
    out: &mut [u8],
    value: &mut [u64],
) -> u64
    ensures value { result ≡ (with_offset_of run.now offset out.old).reply.number * 4294967296 }
    ensures out_after { out.new ≡ (with_offset_of run.now offset out.old).buffer }
    ensures value_after { value.new ≡ widened (with_offset_of run.now offset out.old).reply value.old }
{
    match convert::with_offset(run, offset, out) {
        RunAnswer::Written(n) => {
            put_first(value, n as u64);
            0
        }
        RunAnswer::Refused(number) => alone(number),
        RunAnswer::Stopped(number, at) => {
            put_first(value, at as u64);
            alone(number)
        }
    }
}

// The old form of a run of the new one. In the first two of `values`: the bytes written and the log offset, an int64_t by its bits; or in the first the
// place of the record that is refused.
#[unsafe(no_mangle)]
pub extern "C" fn jeghatuf_without_offset(run: &[u8], out: &mut [u8], values: &mut [u64]) -> u64
    ensures value { result ≡ (without_offset_of run.now out.old).reply.number * 4294967296 }
    ensures out_after { out.new ≡ (without_offset_of run.now out.old).buffer }
    ensures values_after { values.new ≡ filled (without_offset_of run.now out.old).reply.values values.old }
{
    match convert::without_offset(run, out) {
        Separated::Written(n, offset) => {
            put_both(values, n as u64, offset);
            0
        }
        Separated::Refused(number) => alone(number),
        Separated::Stopped(number, at) => {
            put_first(values, at as u64);
            alone(number)
        }
    }
}
