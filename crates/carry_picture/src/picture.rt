// The picture, carried through its three slabs.
ghost use Rattle.std.specs.Prelude.{◌≡◌, ℕ, ◌<◌, [], ◌∷◌, Ok};
ghost use Rattle.buffer.specs.Packed.{packed_at};
ghost use Rattle.bench.specs.Line.{line_of};
ghost use Rattle.bench.specs.Memory.{memories, memory_in, memory};
ghost use Rattle.bench.specs.Stripe.{Reads};
ghost use Rattle.carry_picture.specs.Content.{block_at};
ghost use Rattle.carry_picture.specs.Stripe.{LadenSlab};

use crate::content::BlankImage;
use crate::placing::place_picture;
use bench::{Slab, Slabs, Stripe, StripeLine, stripe_line};
use fault::Fault;

// Places, closes the picture, and then reads every macroblock back: a line for each stripe. The slabs begin as copies of the input, which stays.
pub(crate) fn carry_picture(input: &mut Slabs, slabs: &mut Slabs) -> Result<[StripeLine; 3], Fault>
    ensures answer { result ≡ Ok (line_of 0 (memory input.old 0) (memory slabs.new 0) ∷ line_of 1 (memory input.old 1) (memory slabs.new 1) ∷ line_of 2 (memory input.old 2) (memory slabs.new 2) ∷ []) }
    ensures input { memories input.new.stripes ≡ memories input.old.stripes }
    ensures laden { (stripe : ℕ) → stripe < 3 → LadenSlab stripe (memory slabs.old stripe) (memory slabs.new stripe) }
{
    place_picture(slabs)?;
    let image = BlankImage::new();
    stripe_lines(&image, &mut input.stripes, &mut slabs.stripes)
}

// The line of each stripe, where all macroblocks carry their blocks. It takes arrays, since the proof knows no length of an array behind a
// field, and goes by number, since by `zip` it does not find that the number is below 3.
fn stripe_lines(
    image: &BlankImage,
    input: &mut [Slab; 3],
    slabs: &mut [Slab; 3],
) -> Result<[StripeLine; 3], Fault>
    requires { (stripe column : ℕ) → stripe < 3 → column < 45 → Reads block_at (packed_at (memory_in slabs.old stripe) 1440) stripe column }
    ensures answer { result ≡ Ok (line_of 0 (memory_in input.old 0) (memory_in slabs.old 0) ∷ line_of 1 (memory_in input.old 1) (memory_in slabs.old 1) ∷ line_of 2 (memory_in input.old 2) (memory_in slabs.old 2) ∷ []) }
    ensures input { memories input.new ≡ memories input.old }
    ensures slabs { memories slabs.new ≡ memories slabs.old }
{
    let mut lines = [StripeLine::default(); 3];
    for number in 0..3 {
        let before = &mut input[number];
        let after = &mut slabs[number];
        lines[number] = stripe_line(image, Stripe { number }, before, after)?;
    }
    Ok(lines)
}
