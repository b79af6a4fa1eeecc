// Numbers that a word of a case can be.
ghost use Rattle.std.specs.Prelude.{List, ℕ, ℤ, pos, Result};
ghost use Rattle.cases.specs.Words.{Form, unsigned, signed, ReadsNumber};
ghost use Rattle.cases.specs.Reading.{reads_unsigned, reads_signed, stored};

use std::str::FromStr;

// What the library reads of a word is the number that it spells in the form, if it is one.
pub(crate) trait Number: FromStr {
    ghost form: { Form };

    ghost number: { Self → ℤ };

    ghost reads: { (word : List ℕ) (r : Result Self Self.Err) → Self.FromStr.from_str_gives word r → ReadsNumber form number word r };
}

impl Number for u8 {
    ghost form = { unsigned 10 8 };

    ghost number = { pos };

    ghost reads = { λ word r gives. reads_unsigned 10 8 word r gives.0 };
}

impl Number for u16 {
    ghost form = { unsigned 10 16 };

    ghost number = { pos };

    ghost reads = { λ word r gives. reads_unsigned 10 16 word r gives.0 };
}

impl Number for u32 {
    ghost form = { unsigned 10 32 };

    ghost number = { pos };

    ghost reads = { λ word r gives. reads_unsigned 10 32 word r gives.0 };
}

impl Number for i16 {
    ghost form = { signed };

    ghost number = { stored };

    ghost reads = { λ word r gives. reads_signed word r gives.0 };
}
