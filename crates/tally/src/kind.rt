// What can come of gathering a macroblock, and how often each did.

// Good is an acceptance, foreign a block of another reference than the one due, bad anything else.
#[derive(Clone, Copy, Debug, PartialEq, Eq)]
pub enum Kind {
    Good,
    Foreign,
    Bad,
}

#[derive(Clone, Copy, Debug, Default, PartialEq, Eq)]
pub struct Tally {
    pub good: usize,
    pub foreign: usize,
    pub bad: usize,
}
