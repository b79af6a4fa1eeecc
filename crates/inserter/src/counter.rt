// The plain counter of an inserter.
ghost use Rattle.std.specs.Prelude.{◌≡◌, ◌≤◌};

use format::Format;

// Counts the references of the pictures of one format: the next picture begins at `next`.
#[derive(Drop)]
pub struct Counter {
    pub(crate) format: Format,
    pub(crate) next: u16,
    ghost lawful: { next ≤ 65520 },
}

impl Counter {
    // The format of the pictures.
    pub fn format(&self) -> Format
        ensures { result ≡ self.now.format }
    {
        self.format
    }

    // The first reference of the next picture.
    pub fn next(&self) -> u16
        ensures { result ≡ self.now.next }
    {
        self.next
    }
}
