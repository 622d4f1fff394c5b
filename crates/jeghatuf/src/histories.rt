// Short histories for programs in other languages. `unpacked` (`specs/Unpacked.antt`) is what the packed answer gives back.
ghost use Rattle.std.specs.Prelude.{◌≡◌};
ghost use Rattle.model.specs.ShortHistory.{history_of};
ghost use Rattle.packing.specs.Packed.{packed};

use packing::pack;

// The history under a number, of 1 to 8 records: the bytes written.
#[unsafe(no_mangle)]
pub extern "C" fn jeghatuf_history(records: &[u8], number: u64, out: &mut [u8]) -> u64
    ensures value { result ≡ packed (history_of records.now number out.old).reply }
    ensures out_after { out.new ≡ (history_of records.now number out.old).buffer }
{
    pack(short_histories::history(records, number, out))
}
