// Worked examples: published values, stated of the definitions; and as tests, the same values and a pile of layers over packed memory.
#![tactic(auto)]

#[cfg(test)]
mod piles;
mod table;
#[cfg(test)]
mod values;

pub use table::worked_values;
