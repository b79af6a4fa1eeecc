// A slab in packed memory.
ghost use Rattle.std.specs.Prelude.{◌≡◌, length};
ghost use Rattle.bench.specs.Slab.{extent_in};

use buffer::PackedBuffer;
use raster::Extent;

// The slab that 28,800 bytes of memory hold. Over any other number of bytes it has no rows and no words.
pub fn slab_in(memory: &mut [u8]) -> PackedBuffer<'_>
    ensures extent { result.extent ≡ extent_in memory.old }
    ensures rows { length memory.old ≡ 28800 → result.extent.rows ≡ 16 }
    ensures words { length memory.old ≡ 28800 → result.extent.words ≡ 1440 }
    ensures value { result.memory.now ≡ memory.old }
    ensures name { result.memory.ghost_name ≡ memory.entry.ghost_name }
{
    PackedBuffer::new(
        Extent {
            rows: 16,
            words: 1440,
        },
        memory,
    )
}
