// What moved between two slabs.
ghost use Rattle.std.specs.Prelude.{◌≡◌, length, min, Ok};
ghost use Rattle.raster.specs.Difference.{differing};
ghost use Rattle.buffer.specs.Packed.{packed_at};
ghost use Rattle.bench.specs.Slab.{moved_in};

use crate::slab::slab_in;
use fault::Fault;
use raster::count_differing;

// How many words differ between the slabs in two memories. Where one of them holds no slab, no word does.
pub fn count_moved(before: &mut [u8], after: &mut [u8]) -> Result<u128, Fault>
    ensures answer { result ≡ Ok (moved_in before.old after.old) }
    ensures slabs { length before.old ≡ 28800 → length after.old ≡ 28800 → result ≡ Ok (differing (packed_at before.old 1440) (packed_at after.old 1440) 16 1440) }
    ensures before { before.new ≡ before.old }
    ensures after { after.new ≡ after.old }
{
    let input = slab_in(before);
    let output = slab_in(after);
    count_differing(&input, &output)
}
