// Cases, one a line of standard input, so that a second program can be held to the same answers: the words of a case, the answers
// about checks and blocks, and how an answer is printed.
#![tactic(auto)]

mod answers;
mod digits;
mod number;
mod run;
mod stop;
mod text;
mod words;

pub use answers::{check_case, decode_case, encode_case};
pub use digits::rows_of;
pub use run::{Kinds, answer_all, answer_lines};
pub use stop::Stop;
pub use text::{BlockLine, Refusal};
pub use words::{Words, parsed};
