// Values that a slot can hold.
ghost use Rattle.std.specs.Prelude.{◌≡◌, Bool, Decides};

// What a slot can hold: values that are told apart by a test of every part.
pub trait Exact: Copy {
    // The test.
    ghost same: { Self → Self → Bool };

    fn is_same(&self, other: &Self) -> bool
        ensures { result ≡ same self.now other.now };

    // It holds of equal values alone.
    ghost exact: { (x y : Self) → Decides (same x y) (x ≡ y) };
}

// Values whose `==` is of every part are told apart by it.
impl<V: exact::Exact + Copy> Exact for V {
    ghost same = { V.PartialEq.eq };

    ghost exact = { V.exact };

    fn is_same(&self, other: &V) -> bool {
        exact::is_same(self, other)
    }
}
