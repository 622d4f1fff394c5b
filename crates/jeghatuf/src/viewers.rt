// What a viewer sees, for programs in other languages. `prefixes` are up to 8, each a two-byte length and its bytes, in any order. `unpacked`
// (`specs/Unpacked.antt`) is what their packed answers give back.
ghost use Rattle.std.specs.Prelude.{◌≡◌};
ghost use Rattle.model.specs.View.{view_snapshot_of, view_topic_of, view_partition_of, view_freeze_of};
ghost use Rattle.packing.specs.Packed.{packed};

use packing::pack;

// The records under visible names: the bytes written.
#[unsafe(no_mangle)]
pub extern "C" fn jeghatuf_view_snapshot(image: &[u8], prefixes: &[u8], out: &mut [u8]) -> u64
    ensures value { result ≡ packed (view_snapshot_of image.now prefixes.now out.old).reply }
    ensures out_after { out.new ≡ (view_snapshot_of image.now prefixes.now out.old).buffer }
{
    pack(view_snapshot::view_snapshot(image, prefixes, out))
}

// The topic of a visible name, as its record: the bytes written.
#[unsafe(no_mangle)]
pub extern "C" fn jeghatuf_view_topic(
    image: &[u8],
    prefixes: &[u8],
    name: &[u8],
    out: &mut [u8],
) -> u64
    ensures value { result ≡ packed (view_topic_of image.now prefixes.now name.now out.old).reply }
    ensures out_after { out.new ≡ (view_topic_of image.now prefixes.now name.now out.old).buffer }
{
    pack(views::view_topic(image, prefixes, name, out))
}

// The partition of a visible topic's name and a number, which is given by its four bytes as an unsigned one, as its record.
#[unsafe(no_mangle)]
pub extern "C" fn jeghatuf_view_partition(
    image: &[u8],
    prefixes: &[u8],
    name: &[u8],
    number: u32,
    out: &mut [u8],
) -> u64
    ensures value { result ≡ packed (view_partition_of image.now prefixes.now name.now number out.old).reply }
    ensures out_after { out.new ≡ (view_partition_of image.now prefixes.now name.now number out.old).buffer }
{
    pack(views::view_partition(image, prefixes, name, number, out))
}

// The freeze of a visible name, as its record.
#[unsafe(no_mangle)]
pub extern "C" fn jeghatuf_view_freeze(
    image: &[u8],
    prefixes: &[u8],
    name: &[u8],
    out: &mut [u8],
) -> u64
    ensures value { result ≡ packed (view_freeze_of image.now prefixes.now name.now out.old).reply }
    ensures out_after { out.new ≡ (view_freeze_of image.now prefixes.now name.now out.old).buffer }
{
    pack(views::view_freeze(image, prefixes, name, out))
}
