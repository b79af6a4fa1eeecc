// What a survey found, and how it is told.
ghost use Rattle.std.specs.Prelude.{Some};
ghost use Rattle.survey.specs.Report.{stripe_text, picture_text, survey_text};

use fault::Fault;
use std::fmt;
use tally::Tally;

// The tallies of the three stripes, and what deliver answered.
#[derive(Clone, Copy)]
pub struct Survey {
    pub tallies: [Tally; 3],
    pub delivered: Result<(), Fault>,
}

#[derive(Clone, Copy)]
pub struct StripeLine {
    pub stripe: usize,
    pub tally: Tally,
}

#[derive(Clone, Copy)]
pub struct PictureLine {
    pub delivered: Result<(), Fault>,
}

impl fmt::Display for StripeLine {
    ghost output = { λ l. Some (stripe_text l.stripe l.tally) };

    fn fmt<W: fmt::Write>(&self, f: &mut fmt::Formatter<W>) -> fmt::Result {
        let stripe = self.stripe;
        let good = self.tally.good;
        let foreign = self.tally.foreign;
        let bad = self.tally.bad;
        write!(f, "stripe {stripe} good {good} foreign {foreign} bad {bad}")
    }
}

impl fmt::Display for PictureLine {
    ghost output = { λ l. Some (picture_text l.delivered) };

    fn fmt<W: fmt::Write>(&self, f: &mut fmt::Formatter<W>) -> fmt::Result {
        match self.delivered {
            Ok(()) => write!(f, "picture whole"),
            Err(fault) => {
                let number = fault.number();
                write!(f, "picture refused {number}")
            }
        }
    }
}

// A line for each stripe, and one for the picture. The stripes go by number: a loop would want an invariant of all that the formatter wrote.
impl fmt::Display for Survey {
    ghost output = { λ s. Some (survey_text s) };

    fn fmt<W: fmt::Write>(&self, f: &mut fmt::Formatter<W>) -> fmt::Result {
        let first = StripeLine {
            stripe: 0,
            tally: self.tallies[0],
        };
        let second = StripeLine {
            stripe: 1,
            tally: self.tallies[1],
        };
        let third = StripeLine {
            stripe: 2,
            tally: self.tallies[2],
        };
        let picture = PictureLine {
            delivered: self.delivered,
        };
        write!(f, "{first}\n{second}\n{third}\n{picture}")
    }
}
