// The entry points for programs in other languages. Each answers with one number: 01's number times 2^32, and the value that comes with it,
// which is below 2^32. `unpacked` (`specs/Unpacked.antt`) proves for each of them that both are got back.
#![tactic(auto)]

mod comparisons;
mod conversions;
mod histories;
mod images;
mod kafka;
mod lists;
mod logs;
mod restarts;
mod tags;
mod viewers;

ghost use Rattle.std.specs.Prelude.{◌≡◌};
ghost use Rattle.model.specs.Record.{read_of};
ghost use Rattle.packing.specs.Packed.{packed};
ghost use Rattle.jeghatuf.specs.Write.{write_of_number};

use model::answers::Answer;
use model::refusals::UNKNOWN_KIND;
use packing::kinds::{Numbered, kind_of};
use packing::pack;

// Reads the record at the start of `input`: the bytes used.
#[unsafe(no_mangle)]
pub extern "C" fn jeghatuf_read(input: &[u8]) -> u64
    ensures { result ≡ packed (read_of input.now) }
{
    pack(records::read(input))
}

// Writes a record of a kind's number with the fields of three lists: the bytes written. A number of no kind is refused as Read refuses it.
#[unsafe(no_mangle)]
pub extern "C" fn jeghatuf_write(
    kind: u8,
    tags: &[u8],
    lengths: &[u16],
    values: &[u8],
    out: &mut [u8],
) -> u64
    ensures value { result ≡ packed (write_of_number kind tags.now lengths.now values.now out.old).reply }
    ensures out_after { out.new ≡ (write_of_number kind tags.now lengths.now values.now out.old).buffer }
{
    match kind_of(kind) {
        Numbered::Kind(k) => pack(records::write(k, tags, lengths, values, out)),
        Numbered::Unknown => pack(Answer::Refused(UNKNOWN_KIND)),
    }
}
