// Telling an answer's kind, and counting it.
ghost use Rattle.std.specs.Prelude.{◌≡◌, ◌+◌, ◌^◌, ◌<◌, if◌then◌else◌};
ghost use Rattle.tally.specs.declared.kind.Kind.TheVariants.{Good, Foreign, Bad};
ghost use Rattle.tally.specs.Kinds.{kinds, kind_of, same_kind, Listed};

use crate::{Kind, Tally};
use fault::Fault;
use record::Block;

impl Kind {
    // Every kind once.
    pub fn all() -> [Kind; 3]
        ensures answer { result ≡ kinds }
        ensures listed { Listed }
    {
        [Kind::Good, Kind::Foreign, Kind::Bad]
    }
}

// What kind of answer it is.
impl<'a> From<&'a Result<Block, Fault>> for Kind {
    ghost from_gives = { λ answer kind. kind ≡ kind_of answer.now };

    fn from(answer: &'a Result<Block, Fault>) -> Kind {
        match answer {
            Ok(_) => Kind::Good,
            Err(Fault::UnexpectedReference) => Kind::Foreign,
            Err(_) => Kind::Bad,
        }
    }
}

impl Tally {
    // One answer more. By a match, since the three counts are fields with names, and the kind says which of them goes up.
    pub(crate) fn told(self, kind: Kind) -> Tally
        requires { (self.good + 1 < 2 ^ 64) × ((self.foreign + 1 < 2 ^ 64) × (self.bad + 1 < 2 ^ 64)) }
        ensures { result ≡ record { good = self.good + (if same_kind kind Good then 1 else 0); foreign = self.foreign + (if same_kind kind Foreign then 1 else 0); bad = self.bad + (if same_kind kind Bad then 1 else 0) } }
    {
        match kind {
            Kind::Good => Tally {
                good: self.good + 1,
                ..self
            },
            Kind::Foreign => Tally {
                foreign: self.foreign + 1,
                ..self
            },
            Kind::Bad => Tally {
                bad: self.bad + 1,
                ..self
            },
        }
    }
}
