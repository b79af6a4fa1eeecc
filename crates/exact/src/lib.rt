// Values that are equal exactly if every part is.
#![tactic(auto)]

ghost use Rattle.std.specs.Prelude.{◌≡◌, Decides};
ghost use Rattle.std.proofs.lemmas.Bool.Decides.{Decides-eqb};

// What `==` says of such values: it holds of a value and itself, and of no two others.
pub trait Exact: Eq {
    ghost exact: { (x y : Self) → Decides (Self.PartialEq.eq x y) (x ≡ y) };
}

impl Exact for u32 {
    ghost exact = { Decides-eqb };
}

// Whether the values are one and the same.
pub fn is_same<T: Exact>(a: &T, b: &T) -> bool
    ensures computed { result ≡ T.PartialEq.eq a.now b.now }
    ensures exact { Decides result (a.now ≡ b.now) }
{
    *a == *b
}
