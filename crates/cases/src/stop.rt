// Why a case ends early: a call refused, which is an answer too, the line is no case, or there is no memory for the answer.
ghost use Rattle.std.specs.Prelude.{◌≡◌};
ghost use Rattle.cases.specs.declared.stop.Stop.TheVariants.{Refused, Broken, NoMemory};

use fault::Fault;
use std::alloc::{AllocError, AllocFailed};

#[derive(Drop)]
pub enum Stop {
    Refused(Fault),
    Broken(anyhow::Error),
    NoMemory,
}

impl From<Fault> for Stop {
    ghost from_gives = { λ fault stop. stop ≡ Refused fault };

    fn from(fault: Fault) -> Stop {
        Stop::Refused(fault)
    }
}

impl From<anyhow::Error> for Stop {
    ghost from_gives = { λ error stop. stop ≡ Broken error };

    fn from(error: anyhow::Error) -> Stop {
        Stop::Broken(error)
    }
}

impl From<AllocError> for Stop {
    ghost from_gives = { λ _ stop. stop ≡ NoMemory };

    fn from(_error: AllocError) -> Stop {
        Stop::NoMemory
    }
}

impl<T: Drop> From<AllocFailed<T>> for Stop {
    ghost from_gives = { λ _ stop. stop ≡ NoMemory };

    fn from(_failed: AllocFailed<T>) -> Stop {
        Stop::from(AllocError)
    }
}
