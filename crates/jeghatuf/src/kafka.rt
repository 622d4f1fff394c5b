// Kafka's own record bytes for programs in other languages. `unpacked` (`specs/Unpacked.antt`) is what their packed answers give back.
ghost use Rattle.std.specs.Prelude.{◌≡◌};
ghost use Rattle.model.specs.Kafka.{read_kafka_of, write_kafka_of};
ghost use Rattle.packing.specs.Packed.{packed, beside};

use model::answers::Counted;
use packing::{alone, pack, put_first};

// Reads the record of Kafka's at the start of `input` and writes ours: the bytes written, and in the first of `used` the bytes of the input that were
// used.
#[unsafe(no_mangle)]
pub extern "C" fn jeghatuf_kafka_read(input: &[u8], out: &mut [u8], used: &mut [u64]) -> u64
    ensures value { result ≡ packed (read_kafka_of input.now out.old).reply }
    ensures out_after { out.new ≡ (read_kafka_of input.now out.old).buffer }
    ensures used_after { used.new ≡ beside (read_kafka_of input.now out.old).reply used.old }
{
    match kafka_read::read(input, out) {
        Counted::Written(n, count) => {
            put_first(used, count);
            n as u64
        }
        Counted::Refused(number) => alone(number),
    }
}

// Writes the record of ours at the start of `input` as Kafka's: the bytes written.
#[unsafe(no_mangle)]
pub extern "C" fn jeghatuf_kafka_write(input: &[u8], out: &mut [u8]) -> u64
    ensures value { result ≡ packed (write_kafka_of input.now out.old).reply }
    ensures out_after { out.new ≡ (write_kafka_of input.now out.old).buffer }
{
    pack(kafka_write::write(input, out))
}
