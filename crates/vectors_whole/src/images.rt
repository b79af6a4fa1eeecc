// Answers about picture images.
ghost use Rattle.std.specs.Prelude.{◌≡◌, ◌<◌, ◌↔◌, length, bit_xor, is_ok, slice_index, slice_set, if◌then◌else◌, IsOk, IfOk, Some, take};
ghost use Rattle.image.specs.Elements.{element_at};
ghost use Rattle.image.specs.Image.{with_check};

use anyhow::{Context, ensure};
use cases::{Refusal, Stop, Words, parsed};
use image::{SealedImage, check_image};
use std::alloc::Global;
use std::fmt::Write;
use std::str::FromStr;

// Seals data over the blank image; the answer ends with the check that the image has then.
pub fn seal_case(heap: Global, case: &mut Words<'_>) -> Result<String, Stop> {
    let bytes = data_of(heap, case)?;
    let mut image = SealedImage::blank();
    let sealed = image.seal(&bytes);
    let check = last_element(&image);
    match sealed {
        Ok(()) => Ok(format!(in heap; "sealed {check:08X}")?),
        Err(fault) => {
            let refusal = Refusal(fault);
            Ok(format!(in heap; "{refusal} {check:08X}")?)
        }
    }
}

// The elements of a sealed image.
pub fn elements_case(heap: Global, case: &mut Words<'_>) -> Result<String, Stop> {
    let bytes = data_of(heap, case)?;
    let mut image = SealedImage::blank();
    image.seal(&bytes)?;
    let mut line = String::from_str(heap, "elements")?;
    for element in image.elements() {
        write!(line, " {element:08X}")?;
    }
    Ok(line)
}

// Judges the blank image with some bits inverted.
pub fn image_case(heap: Global, case: &mut Words<'_>) -> Result<String, Stop> {
    judged(heap, &inverted(case.rest())?)
}

// Judges the blank image with some bits inverted and its check mended.
pub fn mended_case(heap: Global, case: &mut Words<'_>) -> Result<String, Stop> {
    let mut bytes = inverted(case.rest())?;
    mend(&mut bytes);
    judged(heap, &bytes)
}

fn judged(heap: Global, bytes: &[u8; 540]) -> Result<String, Stop> {
    check_image(bytes)?;
    Ok(String::from_str(heap, "lawful")?)
}

// The blank image with some bytes replaced, sealed.
pub fn image_of(heap: Global, words: &[&str]) -> Result<SealedImage, Stop> {
    let mut image = SealedImage::blank();
    let mut bytes = data_in(heap, &image)?;
    replace(&mut bytes, words)?;
    image.seal(&bytes)?;
    Ok(image)
}

// The data of an image, which is all but its check.
pub fn data_in(heap: Global, image: &SealedImage) -> anyhow::Result<Vec<u8>>
    ensures { IfOk result (λ kept. kept.items ≡ take 536 image.now.bytes) }
{
    Ok(image.bytes()[..536].to_vec(heap)?)
}

// The last element, which is the check.
pub fn last_element(image: &SealedImage) -> u32
    ensures { element_at image.now.bytes 134 ≡ Some result }
{
    image.element(134).unwrap_or(0)
}

// Puts in the check that fits.
#[tactic(auto, unfolding(image::specs::Image::with_check))]
pub fn mend(bytes: &mut [u8; 540])
    ensures { bytes.new ≡ with_check (take 536 bytes.old) }
{
    let (data, check) = bytes.split_at_mut(536);
    check.copy_from_slice(&crc::check(data).to_be_bytes());
}

// The element of an index, if there is one, in an image that need not be sealed.
pub fn element_in(bytes: &[u8; 540], index: usize) -> Option<u32> {
    let (elements, _) = bytes.as_chunks::<4>();
    let element = elements.get(index)?;
    Some(u32::from_be_bytes(*element))
}

// Zero bytes, as many as the first word says, with some replaced.
fn data_of(heap: Global, case: &mut Words<'_>) -> anyhow::Result<Vec<u8>> {
    let length: u16 = case.take()?;
    let mut bytes = vec![in heap; 0; usize::from(length)]?;
    replace(&mut bytes, case.rest())?;
    Ok(bytes)
}

fn replace(bytes: &mut [u8], words: &[&str]) -> anyhow::Result<()> {
    for word in words {
        parsed::<Change>(word)?.replace(bytes)?;
    }
    Ok(())
}

// The blank image with some bits inverted.
fn inverted(words: &[&str]) -> anyhow::Result<[u8; 540]> {
    let mut bytes = *SealedImage::blank().bytes();
    for word in words {
        parsed::<Change>(word)?.invert(&mut bytes)?;
    }
    Ok(bytes)
}

// A byte and where it goes, as in 15=40.
#[derive(Clone, Copy)]
pub struct Change {
    place: usize,
    byte: u8,
}

impl FromStr for Change {
    type Err = anyhow::Error;

    fn from_str(word: &str) -> anyhow::Result<Change> {
        let (place, byte) = word.split_once('=').context("a byte of no place")?;
        Change::at(place, byte)
    }
}

impl Change {
    // A place in decimal, and a byte in hex.
    pub fn at(place: &str, byte: &str) -> anyhow::Result<Change> {
        Ok(Change {
            place: parsed(place)?,
            byte: u8::from_str_radix(byte, 16)?,
        })
    }

    pub fn replace(&self, bytes: &mut [u8]) -> anyhow::Result<()>
        ensures there { IsOk result ↔ (self.now.place < length bytes.old) }
        ensures bytes { bytes.new ≡ (if is_ok result then slice_set bytes.old self.now.place self.now.byte else bytes.old) }
    {
        ensure!(self.place < bytes.len(), "a byte that is not there");
        bytes[self.place] = self.byte;
        Ok(())
    }

    pub fn invert(&self, bytes: &mut [u8]) -> anyhow::Result<()>
        ensures there { IsOk result ↔ (self.now.place < length bytes.old) }
        ensures bytes { bytes.new ≡ (if is_ok result then slice_set bytes.old self.now.place (bit_xor (slice_index bytes.old self.now.place) self.now.byte) else bytes.old) }
    {
        ensure!(self.place < bytes.len(), "a byte that is not there");
        bytes[self.place] ^= self.byte;
        Ok(())
    }
}
