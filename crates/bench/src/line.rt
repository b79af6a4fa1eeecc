// The line that is printed of a stripe.
ghost use Rattle.std.specs.Prelude.{Some};
ghost use Rattle.bench.specs.Line.{line_text};

use std::fmt;

// A stripe, the words that writing moved in it, and the macroblocks that were read as their blocks.
#[derive(Clone, Copy, Debug, Default)]
pub struct StripeLine {
    pub stripe: usize,
    pub moved: u128,
    pub read: usize,
}

impl fmt::Display for StripeLine {
    ghost output = { λ l. Some (line_text l) };

    fn fmt<W: fmt::Write>(&self, f: &mut fmt::Formatter<W>) -> fmt::Result {
        let stripe = self.stripe;
        let moved = self.moved;
        let read = self.read;
        write!(f, "stripe {stripe} moved {moved} read {read}")
    }
}
