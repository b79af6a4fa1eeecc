// What a refusal names.
ghost use Rattle.std.proofs.Common.{rules};

use exact::Exact;

// The layer that a refusal belongs to.
#[derive(Clone, Copy, Debug, PartialEq, Eq)]
pub enum Layer {
    Raster,
    Block,
    Picture,
}

// Where a refusal applies: at a word of the topmost raster, or at a slot of a table.
#[derive(Clone, Copy, Debug, PartialEq, Eq)]
pub enum Place {
    Word { row: usize, word: usize },
    Slot(usize),
}

impl Exact for Layer {
    ghost exact = { λ x y. Prim.search rules };
}

impl Exact for Place {
    ghost exact = { λ x y. Prim.search rules };
}
