// An open picture.
ghost use Rattle.std.specs.Prelude.{◌≡◌};
ghost use Rattle.format.specs.Formats.{next_first};

use crate::Counter;
use format::Format;

// A picture borrows the inserter's counter while it is open. Every way out of it ends it, and its end writes the next picture's first
// reference: this one's plus its macroblocks, modulo 65521.
pub struct Picture<'a> {
    counter: &'a mut Counter,
    pub(crate) format: Format,
    pub(crate) first: u16,
}

impl Drop for Picture<'_> {
    fn drop(self)
        ensures next { self.exit.0.now.next ≡ next_first self.entry.format self.entry.first }
        ensures format { self.exit.0.now.format ≡ self.entry.counter.now.format }
    {
        let Picture {
            counter,
            format,
            first,
        } = self;
        counter.next = format.next_first(first);
    }
}

impl Counter {
    // Opens a picture at the next reference. The counter goes on at once, and again at the picture's end: so it does even if the picture is
    // forgotten and never ends.
    pub fn open(&mut self) -> Picture<'_>
        ensures format { result.format ≡ self.old.format }
        ensures first { result.first ≡ self.old.next }
        ensures counter { (result.counter.now.format ≡ self.old.format) × (result.counter.now.next ≡ next_first self.old.format self.old.next) × (result.counter.ghost_name ≡ self.entry.ghost_name) }
    {
        let format = self.format;
        let first = self.next;
        self.next = format.next_first(first);
        Picture {
            counter: self,
            format,
            first,
        }
    }
}

impl Picture<'_> {
    // The reference of its first macroblock.
    pub fn first(&self) -> u16
        ensures { result ≡ self.now.first }
    {
        self.first
    }

    // Ends it.
    pub fn close(self)
        ensures next { self.exit.0.now.next ≡ next_first self.entry.format self.entry.first }
        ensures format { self.exit.0.now.format ≡ self.entry.counter.now.format }
    {}
}
