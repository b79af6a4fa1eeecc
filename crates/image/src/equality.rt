// When two sealed images are equal.
ghost use Rattle.image.specs.Equality.{image_exact};

use crate::SealedImage;
use exact::Exact;

// Exactly if their bytes are.
impl Exact for SealedImage {
    ghost exact = { image_exact };
}
