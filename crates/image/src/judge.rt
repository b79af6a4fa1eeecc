// Judging images: their check, and what every sealed image keeps.
ghost use Rattle.std.specs.Prelude.{◌≡◌, not, length, take, is_ok, IfOk, Ok, Decides};
ghost use Rattle.fault.specs.declared.Fault.TheVariants.{ImageCheck};
ghost use Rattle.fault.specs.Refusing.{refuse};
ghost use Rattle.image.specs.Image.{check_fits, lawful, judged, Sealed, Fit, with_check, sealing, blank_image};

use crate::table::Name;
use crate::value::value;
use fault::Fault;

// The bytes before the check.
const DATA: usize = 536;

// Refuses with 22 if the check of an image does not fit, then as seal does. It accepts exactly what sealing makes of the first 536 bytes.
pub fn check_image(bytes: &[u8; 540]) -> Result<(), Fault>
    ensures answer { result ≡ judged bytes.now }
    ensures sealed { Decides (is_ok result) (Sealed bytes.now) }
    ensures accepts { Decides (is_ok result) (Fit bytes.now) }
    ensures seals { Decides (is_ok result) (sealing (take 536 bytes.now) ≡ Ok bytes.now) }
{
    judge(bytes)
}

fn judge(bytes: &[u8; 540]) -> Result<(), Fault>
    ensures { result ≡ refuse (not (check_fits bytes.now)) ImageCheck (lawful bytes.now) }
{
    if !check_fits(bytes) {
        return Err(Fault::ImageCheck);
    }
    check_fields(bytes)
}

// The image of 536 bytes of data. It is sealed.
pub(crate) fn sealed(data: &[u8]) -> Result<[u8; 540], Fault>
    ensures answer { result ≡ sealing «data».now }
    ensures sealed { IfOk result Sealed }
{
    image_of(data)
}

fn image_of(data: &[u8]) -> Result<[u8; 540], Fault>
    ensures { result ≡ sealing «data».now }
{
    if data.len() != DATA {
        return Err(Fault::Length);
    }
    let bytes = with_check(data);
    check_fields(&bytes)?;
    Ok(bytes)
}

// What every sealed image keeps.
fn check_fields(bytes: &[u8; 540]) -> Result<(), Fault>
    ensures { result ≡ lawful bytes.now }
{
    if value(bytes, Name::MpegStandardFlag) == 1 {
        return Err(Fault::MpegStandard);
    }
    if value(bytes, Name::PictureStructure) == 0 {
        return Err(Fault::PictureStructure);
    }
    let chroma_format = value(bytes, Name::ChromaFormat);
    if chroma_format == 0 || chroma_format == 3 {
        return Err(Fault::ChromaFormat);
    }
    if value(bytes, Name::Spare) != 0 {
        return Err(Fault::SpareBit);
    }
    Ok(())
}

// Whether the check is that of the data.
fn check_fits(bytes: &[u8; 540]) -> bool
    ensures { result ≡ check_fits bytes.now }
{
    value(bytes, Name::Check) == u64::from(crc::check(&bytes[..DATA]))
}

// Data with its check after it.
pub(crate) fn with_check(data: &[u8]) -> [u8; 540]
    requires { length «data».now ≡ 536 }
    ensures { result ≡ with_check «data».now }
{
    let mut bytes = [0; 540];
    bytes[..DATA].copy_from_slice(data);
    bytes[DATA..].copy_from_slice(&crc::check(data).to_be_bytes());
    bytes
}

// The image of data that is zero but for chroma_format 1 and picture_structure 3.
pub(crate) fn blank_image() -> [u8; 540]
    ensures { result ≡ blank_image }
{
    let mut data = [0; 536];
    data[15] = 0x40;
    data[32] = 0x06;
    with_check(&data)
}
