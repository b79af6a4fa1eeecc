// Slabs in memory that is filled from a seed.
ghost use Rattle.std.specs.Prelude.{◌≡◌, ℕ, ⊤, ◌*◌, ◌/◌, IfOk};
ghost use Rattle.std.specs.Iterator.{YieldsFirst, item_count};
ghost use Rattle.vectors_whole.specs.Seeds.{next_state, states_of, high_halves, high_bytes};
ghost use Rattle.crc.specs.Register.{check_of};
ghost use Rattle.vectors_whole.specs.Slabs.{Filled, bits_in, shown, word_in};

use anyhow::anyhow;
use buffer::{PackedBuffer, WordBuffer};
use cases::Words;
use crc::check;
use layer::{Field, FieldKind};
use raster::{Extent, Raster};
use std::alloc::{AllocError, Global};
use std::str::FromStr;

// What a case does on its slab, whatever raster that is. A closure could not be generic over the raster.
pub trait OnSlab {
    type Said;

    // What it may say of a slab of so many rows and words a row, which shows these words.
    ghost says: { Self → ℕ → ℕ → (ℕ → ℕ → ℕ) → Self.Said → Type 0 } = { λ _ _ _ _ _. ⊤ };

    fn on<R: Raster>(self, slab: &mut R) -> Self::Said
        ensures { says self (R.Raster.rows slab.old) (R.Raster.words slab.old) (R.Raster.at slab.old) result };
}

// What raster a slab is: a buffer, or a field of a word buffer of twice the rows.
#[derive(Clone, Copy)]
enum Kind {
    Word,
    Packed,
    Field(FieldKind),
}

impl FromStr for Kind {
    type Err = anyhow::Error;

    fn from_str(word: &str) -> anyhow::Result<Kind> {
        match word {
            "word" => Ok(Kind::Word),
            "packed" => Ok(Kind::Packed),
            "top" => Ok(Kind::Field(FieldKind::Top)),
            "bottom" => Ok(Kind::Field(FieldKind::Bottom)),
            _ => Err(anyhow!("a slab of no known kind")),
        }
    }
}

#[derive(Clone, Copy)]
pub struct SlabCase {
    kind: Kind,
    rows: u16,
    words: u16,
    seed: u32,
}

impl SlabCase {
    // Takes four words of a case: the kind, rows, words and the seed.
    pub fn of(case: &mut Words<'_>) -> anyhow::Result<SlabCase> {
        Ok(SlabCase {
            kind: case.take()?,
            rows: case.take()?,
            words: case.take()?,
            seed: case.take()?,
        })
    }

    fn extent(&self) -> Extent
        ensures { result ≡ record { rows = self.now.rows; words = self.now.words } }
    {
        Extent {
            rows: usize::from(self.rows),
            words: usize::from(self.words),
        }
    }

    // How many columns lie wholly inside.
    pub fn columns(&self) -> u16
        ensures { result ≡ self.now.words / 32 }
    {
        self.words / 32
    }

    // The extent of the word buffer that has the slab as a field.
    fn doubled(&self) -> Extent
        ensures { result ≡ record { rows = 2 * self.now.rows; words = self.now.words } }
    {
        let extent = self.extent();
        Extent {
            rows: 2 * extent.rows,
            words: extent.words,
        }
    }

    // The slab, in memory of its own.
    pub fn filled(&self, heap: Global) -> anyhow::Result<Slab>
        ensures case { IfOk result (λ slab. slab.case ≡ self.now) }
        ensures memory { IfOk result (λ slab. Filled self.now slab.memory) }
    {
        let words = usize::from(self.rows) * usize::from(self.words);
        let memory = match self.kind {
            Kind::Word => Memory::Word(self.cells(heap, words)?),
            Kind::Packed => Memory::Packed(self.bytes(heap, words / 4 * 5)?),
            Kind::Field(kind) => Memory::Field(kind, self.cells(heap, 2 * words)?),
        };
        Ok(Slab {
            case: *self,
            memory,
        })
    }

    // The high halves of the states after the seed. Beside `bytes`, since one function over what is cut from a state would have to say in
    // its contract what that is.
    fn cells(&self, heap: Global, count: usize) -> Result<Vec<u16>, AllocError>
        ensures { IfOk result (λ cells. cells.items ≡ high_halves count self.now.seed) }
    {
        States::after(self.seed, count)
            .map(|state| (state >> 16) as u16)
            .collect(heap)
    }

    // The high bytes of the states after the seed.
    fn bytes(&self, heap: Global, count: usize) -> Result<Vec<u8>, AllocError>
        ensures { IfOk result (λ bytes. bytes.items ≡ high_bytes count self.now.seed) }
    {
        States::after(self.seed, count)
            .map(|state| (state >> 24) as u8)
            .collect(heap)
    }
}

// A slab and its memory.
#[derive(Clone, Drop)]
pub struct Slab {
    case: SlabCase,
    memory: Memory,
}

#[derive(Clone, Drop)]
enum Memory {
    Word(Vec<u16>),
    Packed(Vec<u8>),
    Field(FieldKind, Vec<u16>),
}

impl Slab {
    // Hands the slab out, as the raster that it is.
    pub fn lend<A: OnSlab>(&mut self, act: A) -> A::Said
        ensures said { let extent = shown self.old.case self.old.memory in A.OnSlab.says act extent.rows extent.words (word_in self.old.case self.old.memory) result }
        ensures case { self.new.case ≡ self.old.case }
    {
        let case = self.case;
        match &mut self.memory {
            Memory::Word(cells) => act.on(&mut WordBuffer::new(case.extent(), cells)),
            Memory::Packed(bytes) => act.on(&mut PackedBuffer::new(case.extent(), bytes)),
            Memory::Field(kind, cells) => {
                let below = WordBuffer::new(case.doubled(), cells);
                act.on(&mut Field::new(below, *kind))
            }
        }
    }

    // The check of all the memory.
    pub fn check(&self) -> u32
        ensures { result ≡ check_of (bits_in self.now.memory) }
    {
        match &self.memory {
            Memory::Word(cells) | Memory::Field(_, cells) => check(cells),
            Memory::Packed(bytes) => check(bytes),
        }
    }
}

// The states of the generator that are to come.
#[derive(Drop)]
struct States {
    state: u32,
    count: usize,
}

impl States {
    fn after(state: u32, count: usize) -> States
        ensures { result ≡ record { state = state; count = count } }
    {
        States { state, count }
    }
}

impl Iterator for States {
    type Item = u32;

    ghost next_gives = { YieldsFirst states_of };

    ghost remaining = { item_count states_of };

    #[tactic(auto, using(crate::proofs::Generator::states_none, crate::proofs::Generator::states_more))]
    fn next(&mut self) -> Option<u32> {
        if self.count == 0 {
            return None;
        }
        self.count -= 1;
        self.state = next_state(self.state);
        Some(self.state)
    }
}

// One step of the generator.
fn next_state(state: u32) -> u32
    ensures { result ≡ next_state state }
{
    state.wrapping_mul(1664525).wrapping_add(1013904223)
}
