// What a call answers, in a word.
use fault::Fault;
use std::fmt;

// The value, or the refusal's number after an exclamation mark.
#[derive(Drop)]
pub struct Told<T>(pub Result<T, Fault>);

impl<T: fmt::Display> fmt::Display for Told<T> {
    fn fmt<W: fmt::Write>(&self, f: &mut fmt::Formatter<W>) -> fmt::Result {
        match &self.0 {
            Ok(value) => write!(f, "{value}"),
            Err(fault) => {
                let number = fault.number();
                write!(f, "!{number}")
            }
        }
    }
}
