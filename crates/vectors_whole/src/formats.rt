// Answers about formats and references.
use cases::{Stop, Words};
use fault::Fault;
use format::Format;
use inserter::Inserter;
use std::alloc::Global;
use std::fmt;
use std::fmt::Write;

// Each macroblock of a stripe: its reference and the index of its element.
pub fn stripe_case(heap: Global, case: &mut Words<'_>) -> Result<String, Stop> {
    let stripe = StripeCase::of(case)?;
    let mut line = String::from_str(heap, "stripe")?;
    for column in 0..stripe.format.columns() {
        let place = stripe.place(column)?;
        write!(line, " {place}")?;
    }
    Ok(line)
}

// The first references of three pictures of a new inserter.
pub fn pictures_case(heap: Global, case: &mut Words<'_>) -> Result<String, Stop> {
    let number = case.take()?;
    let first = case.take()?;
    case.end()?;
    let mut inserter = Inserter::new(number, first)?;
    let mut line = String::from_str(heap, "pictures")?;
    for _ in 0..3 {
        let next = inserter.counter.next();
        write!(line, " {next}")?;
        inserter.counter.open().close();
    }
    Ok(line)
}

#[derive(Drop)]
struct StripeCase {
    format: Format,
    first: u16,
    stripe: usize,
}

impl StripeCase {
    // The format is looked up last: a line of too many words is no case, whatever its format.
    fn of(case: &mut Words<'_>) -> Result<StripeCase, Stop> {
        let number: u32 = case.take()?;
        let first = case.take()?;
        let stripe = case.take()?;
        case.end()?;
        let format = Format::try_from(number)?;
        Ok(StripeCase {
            format,
            first,
            stripe,
        })
    }

    fn place(&self, column: usize) -> Result<Place, Fault> {
        Ok(Place {
            reference: self.format.reference(self.first, self.stripe, column)?,
            index: self.format.index(self.stripe, column)?,
        })
    }
}

// A macroblock's reference, and the element that it carries.
#[derive(Drop)]
struct Place {
    reference: u16,
    index: usize,
}

impl fmt::Display for Place {
    fn fmt<W: fmt::Write>(&self, f: &mut fmt::Formatter<W>) -> fmt::Result {
        let Place { reference, index } = self;
        write!(f, "{reference}:{index}")
    }
}
