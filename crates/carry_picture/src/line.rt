// The line that is printed of the picture.
ghost use Rattle.std.specs.Prelude.{Some};
ghost use Rattle.carry_picture.specs.Line.{picture_text};

use std::fmt;

// The macroblocks of the picture that were gathered, and the slots that then hold an element.
#[derive(Clone, Copy)]
pub struct PictureLine {
    pub gathered: usize,
    pub held: usize,
}

impl fmt::Display for PictureLine {
    ghost output = { λ l. Some (picture_text l) };

    fn fmt<W: fmt::Write>(&self, f: &mut fmt::Formatter<W>) -> fmt::Result {
        let gathered = self.gathered;
        let held = self.held;
        write!(f, "gathered {gathered} held {held}")
    }
}
