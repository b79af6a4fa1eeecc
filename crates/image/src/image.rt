// Sealed images: their check fits, and they pass refusals 23 to 26.
ghost use Rattle.std.specs.Prelude.{◌≡◌};
ghost use Rattle.fault.specs.Refusing.{done};
ghost use Rattle.image.specs.Image.{overwritten, judged, Sealed, sealing, receiving, blank_image, Blank, Samples, is_frame, is422, top_field_first_of, repeat_first_field_of, q_scale_type_of};
ghost use Rattle.image.specs.Elements.{element_at, elements_of, joined};

use crate::elements::{element_of, elements_of};
use crate::judge::{blank_image, check_image, sealed};
use crate::table::Name;
use crate::value::value;
use fault::Fault;
use format::ELEMENTS;

// Nothing but seal and receive writes one, and only on acceptance.
#[derive(Clone, Copy, PartialEq, Eq)]
pub struct SealedImage {
    bytes: [u8; 540],
    ghost fit: { Sealed bytes },
}

impl SealedImage {
    // The image that is zero but for chroma_format 1, picture_structure 3 and its check.
    pub fn blank() -> SealedImage
        ensures bytes { result.bytes ≡ blank_image }
        ensures fields { Blank result.bytes }
        ensures samples { Samples }
    {
        let bytes = blank_image();
        SealedImage { bytes }
    }

    // Its bytes, which are always sealed.
    pub fn bytes(&self) -> &[u8; 540]
        ensures same { result.now ≡ self.now.bytes }
        ensures sealed { Sealed result.now }
    {
        &self.bytes
    }

    // Becomes the image of 536 bytes of data, or stays as it is.
    pub fn seal(&mut self, data: &[u8]) -> Result<(), Fault>
        ensures answer { result ≡ done (sealing «data».now) }
        ensures image { self.new.bytes ≡ overwritten (sealing «data».now) self.old.bytes }
    {
        let bytes = sealed(data)?;
        self.bytes = bytes;
        Ok(())
    }

    // Becomes an image that was sealed elsewhere, or stays as it is.
    pub fn receive(&mut self, bytes: &[u8; 540]) -> Result<(), Fault>
        ensures answer { result ≡ judged bytes.now }
        ensures image { self.new.bytes ≡ overwritten (receiving bytes.now) self.old.bytes }
    {
        check_image(bytes)?;
        self.bytes = *bytes;
        Ok(())
    }

    // The element of an index below 135.
    pub fn element(&self, index: usize) -> Option<u32>
        ensures { result ≡ element_at self.now.bytes index }
    {
        if index < ELEMENTS {
            Some(element_of(self.bytes(), index))
        } else {
            None
        }
    }

    // All elements. Joining them gives the bytes back.
    pub fn elements(&self) -> [u32; 135]
        ensures elements { result ≡ elements_of self.now.bytes }
        ensures back { joined result ≡ self.now.bytes }
    {
        elements_of(self.bytes())
    }

    // Whether the picture is a frame; else it is a field.
    pub fn is_frame(&self) -> bool
        ensures { result ≡ is_frame self.now.bytes }
    {
        value(self.bytes(), Name::PictureStructure) == 3
    }

    // Whether the picture was coded as 4:2:2.
    pub fn is_422(&self) -> bool
        ensures { result ≡ is422 self.now.bytes }
    {
        value(self.bytes(), Name::ChromaFormat) == 2
    }

    pub fn top_field_first(&self) -> bool
        ensures { result ≡ top_field_first_of self.now.bytes }
    {
        value(self.bytes(), Name::TopFieldFirst) == 1
    }

    pub fn repeat_first_field(&self) -> bool
        ensures { result ≡ repeat_first_field_of self.now.bytes }
    {
        value(self.bytes(), Name::RepeatFirstField) == 1
    }

    pub fn q_scale_type(&self) -> bool
        ensures { result ≡ q_scale_type_of self.now.bytes }
    {
        value(self.bytes(), Name::QScaleType) == 1
    }
}
