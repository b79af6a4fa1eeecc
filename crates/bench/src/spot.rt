// Where a macroblock of the bench picture stands.
ghost use Rattle.std.specs.Prelude.{◌≡◌, ◌+◌, ◌*◌, ◌<◌};

// A stripe of the picture.
#[derive(Clone, Copy, Debug)]
pub struct Stripe {
    pub number: usize,
    ghost there: { number < 3 },
}

// A macroblock of the picture.
#[derive(Clone, Copy, Debug)]
pub struct Spot {
    pub stripe: Stripe,
    pub column: usize,
    ghost there: { column < 45 },
}

impl Spot {
    // Its place in the order in which macroblocks are written and gathered.
    pub fn position(self) -> usize
        ensures position { result ≡ 45 * self.stripe.number + self.column }
        ensures few { result < 135 }
    {
        45 * self.stripe.number + self.column
    }
}
