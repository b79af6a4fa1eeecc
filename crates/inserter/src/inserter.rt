// A new inserter.
ghost use Rattle.std.specs.Prelude.{◌≡◌, Ok, Err, MatchResult};
ghost use Rattle.inserter.specs.Count.{begun};

use crate::Counter;
use fault::Fault;
use format::{Format, first_reference};

// An inserter has a plain counter, which it lends to the picture that is open.
#[derive(Drop)]
pub struct Inserter {
    pub counter: Counter,
}

impl Inserter {
    // An inserter for pictures of a format, the first of which begins at a first reference. Both come as numbers, since to refuse those that
    // are neither (3 and 4) is part of the call.
    pub fn new(number: u32, first: u32) -> Result<Inserter, Fault>
        ensures { MatchResult result (λ i. begun number first ≡ Ok (i.counter.format, i.counter.next)) (λ fault. begun number first ≡ Err fault) }
    {
        let format = Format::try_from(number)?;
        let next = first_reference(first)?;
        Ok(Inserter {
            counter: Counter { format, next },
        })
    }
}
