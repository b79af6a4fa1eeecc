// The words of a case, taken one after the other.
ghost use Rattle.std.specs.Prelude.{◌≡◌, ◌↔◌, ◌⊎◌, List, ℕ, [], ◌∷◌, map, drop, length, ◌==◌, is_ok, IsOk, OnOk, IfOk, IfErr, MatchResult, Ok, Err, pos};
ghost use Rattle.cases.specs.Words.{left, first, Reads, are_bytes, SpellsBytes, flag, unsigned, is_number, number_in, picture_forms, record_forms, block_forms, row_forms, spelt, numbers_in, words_after, spelt_whole};
ghost use Rattle.cases.specs.Stop.{Unread};
ghost use Rattle.cases.specs.Numbers.{bit, picture_numbers, record_numbers, block_numbers};

use crate::Stop;
use crate::digits::bytes_of;
use crate::number::Number;
use anyhow::{Context, anyhow, ensure};
use record::{Block, PictureFlags, Record};
use std::alloc::Global;
use std::slice::Iter;
use std::str::FromStr;

// Those that are left.
#[derive(Drop)]
pub struct Words<'a> {
    left: Iter<'a, &'a str>,
}

impl<'a> Words<'a> {
    pub(crate) fn new(words: &'a [&'a str]) -> Words<'a>
        ensures { left result ≡ map (λ t. t.now) words.now }
    {
        Words { left: words.iter() }
    }

    // Takes the next word.
    pub(crate) fn word(&mut self) -> anyhow::Result<&'a str>
        ensures { MatchResult result (λ w. left self.old ≡ w.now ∷ left self.new) (λ _. (left self.old ≡ []) × (left self.new ≡ [])) }
    {
        self.left.next().copied().context("a case of too few words")
    }

    // Takes the next word as what it says.
    pub fn take<T: FromStr>(&mut self) -> anyhow::Result<T>
    where
        anyhow::Error: From<T::Err>,
        ensures ok { IfOk result (λ v. (w : List ℕ) × (left self.old ≡ w ∷ left self.new) × T.from_str_gives w (Ok v)) }
        ensures err { IfErr result (λ _. ((left self.old ≡ []) × (left self.new ≡ [])) ⊎ ((w : List ℕ) × (left self.old ≡ w ∷ left self.new) × ((e : T.Err) × T.from_str_gives w (Err e)))) }
    {
        parsed(self.word()?)
    }

    // The words that are left.
    pub fn rest(&self) -> &'a [&'a str]
        ensures { map (λ t. t.now) result.now ≡ left self.now }
    {
        self.left.as_slice()
    }

    // All words are taken.
    pub fn end(&self) -> anyhow::Result<()>
        ensures all { IsOk result ↔ (left self.now ≡ []) }
        ensures test { is_ok result ≡ (length (left self.now) == 0) }
    {
        ensure!(self.rest().is_empty(), "a case of too many words");
        Ok(())
    }

    // Takes the next word as a number.
    fn number<T: Number>(&mut self) -> anyhow::Result<T>
    where
        anyhow::Error: From<T::Err>,
        ensures accepts { is_ok result ≡ is_number T.form (first (left self.old)) }
        ensures number { IfOk result (λ v. T.number v ≡ number_in T.form (first (left self.old))) }
        ensures rest { OnOk result (left self.new ≡ drop 1 (left self.old)) }
    {
        self.take()
    }

    fn flag(&mut self) -> anyhow::Result<bool>
        ensures accepts { is_ok result ≡ is_number flag (first (left self.old)) }
        ensures number { IfOk result (λ b. bit b ≡ number_in flag (first (left self.old))) }
        ensures rest { OnOk result (left self.new ≡ drop 1 (left self.old)) }
    {
        match self.number::<u8>()? {
            0 => Ok(false),
            1 => Ok(true),
            _ => Err(anyhow!("a flag that is neither 0 nor 1")),
        }
    }

    #[tactic(auto, unfolding(crate::specs::Words::spelt, crate::specs::Words::numbers_in, crate::specs::Words::words_after))]
    fn picture(&mut self) -> anyhow::Result<PictureFlags>
        ensures accepts { is_ok result ≡ spelt picture_forms (left self.old) }
        ensures numbers { IfOk result (λ p. picture_numbers p ≡ numbers_in picture_forms (left self.old)) }
        ensures rest { OnOk result (left self.new ≡ words_after picture_forms (left self.old)) }
    {
        Ok(PictureFlags {
            fr_fl_srib: self.flag()?,
            top_field_first: self.flag()?,
            repeat_first_field: self.flag()?,
            chroma_422_420: self.flag()?,
            q_scale_type: self.flag()?,
        })
    }

    // Takes the next 23 words as a record.
    #[tactic(auto, unfolding(crate::specs::Words::spelt, crate::specs::Words::numbers_in, crate::specs::Words::words_after))]
    pub fn record(&mut self) -> anyhow::Result<Record>
        ensures accepts { is_ok result ≡ spelt record_forms (left self.old) }
        ensures numbers { IfOk result (λ r. record_numbers r ≡ numbers_in record_forms (left self.old)) }
        ensures rest { OnOk result (left self.new ≡ words_after record_forms (left self.old)) }
    {
        Ok(Record {
            mb_quant: self.flag()?,
            mb_mfwd: self.flag()?,
            mb_mbwd: self.flag()?,
            mb_pattern: self.flag()?,
            mb_intra: self.flag()?,
            dct_type: self.flag()?,
            mv000: self.number()?,
            mv010: self.number()?,
            mv100: self.number()?,
            mv110: self.number()?,
            mv001: self.number()?,
            mv011: self.number()?,
            mv101: self.number()?,
            mv111: self.number()?,
            motion_type: self.number()?,
            skipped_mb: self.flag()?,
            num_other_bits: self.number()?,
            slice_start_flag: self.flag()?,
            num_mv_bits: self.number()?,
            q_scale_code: self.number()?,
            mb_vert_field_sel: self.number()?,
            num_coef_bits: self.number()?,
            coded_block_pattern: self.number()?,
        })
    }

    // The rest, as a block.
    #[tactic(auto, using(crate::proofs::Spelling::block_spelt, crate::proofs::Spelling::block_numbers_in, crate::proofs::Spelling::block_words_after))]
    pub(crate) fn block(&mut self) -> anyhow::Result<Block>
        ensures accepts { is_ok result ≡ spelt_whole block_forms (left self.old) }
        ensures numbers { IfOk result (λ b. block_numbers b ≡ numbers_in block_forms (left self.old)) }
        ensures all { OnOk result (left self.new ≡ []) }
    {
        let block = Block {
            picture: self.picture()?,
            reference: self.number()?,
            element: self.number()?,
            record: self.record()?,
        };
        self.end()?;
        Ok(block)
    }

    // The rest, as rows in hex. Not by `array::try_from_fn`, whose contract does not say that each call goes on where the last one
    // stopped.
    #[tactic(auto, using(crate::proofs::Spelling::rows_to_come), unfolding(crate::specs::Words::spelt, crate::specs::Words::numbers_in, crate::specs::Words::words_after))]
    pub fn rows(&mut self) -> anyhow::Result<[u16; 16]>
        ensures accepts { is_ok result ≡ spelt_whole row_forms (left self.old) }
        ensures rows { IfOk result (λ rows. map pos rows ≡ numbers_in row_forms (left self.old)) }
        ensures all { OnOk result (left self.new ≡ []) }
    {
        let mut rows = [0; 16];
        for row in rows.iter_mut() {
            *row = self.row()?;
        }
        self.end()?;
        Ok(rows)
    }

    #[tactic(auto, using(crate::specs::Reading::numeral_passes, crate::specs::Reading::passing_numeral))]
    fn row(&mut self) -> anyhow::Result<u16>
        ensures accepts { is_ok result ≡ is_number (unsigned 16 16) (first (left self.old)) }
        ensures number { IfOk result (λ v. pos v ≡ number_in (unsigned 16 16) (first (left self.old))) }
        ensures rest { OnOk result (left self.new ≡ drop 1 (left self.old)) }
    {
        Ok(u16::from_str_radix(self.word()?, 16)?)
    }

    // The bytes that pairs of hex digits spell, the rest; none where no word is left.
    pub(crate) fn bytes(&mut self, heap: Global) -> Result<Vec<u8>, Stop>
        ensures bytes { IfOk result (λ bytes. SpellsBytes (left self.old) bytes.items) }
        ensures stop { IfErr result (λ stop. Unread (are_bytes (left self.old)) stop) }
        ensures all { OnOk result (left self.new ≡ []) }
    {
        let text = self.left.next().copied().unwrap_or("");
        self.end()?;
        bytes_of(heap, text)
    }
}

// What a word says.
pub fn parsed<T: FromStr>(word: &str) -> anyhow::Result<T>
where
    anyhow::Error: From<T::Err>,
    ensures { Reads T.from_str_gives word.now result }
{
    Ok(word.parse::<T>()?)
}
