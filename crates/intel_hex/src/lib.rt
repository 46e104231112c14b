// Images as Intel HEX: the text of an image, and the bytes that a text's records say.
#![tactic(auto)]

mod bytes;
mod digits;
mod full;
mod line;
mod scan;
mod writing;

ghost use Rattle.std.specs.Prelude.{◌≡◌};
ghost use Rattle.intel_hex.specs.declared.WriteError.TheVariants.{BadImage};
ghost use Rattle.intel_hex.specs.Answers.{HexWrites, HexReads, number_of_write_error, number_of_read_error};

use image::Refusal;

// Why an image's text is not written.
#[derive(Clone, Copy, Debug, PartialEq, Eq)]
pub enum WriteError {
    // 1 to 8: a bad image
    BadImage(Refusal),
    // 25: the output is too short
    NoRoom,
}

impl WriteError {
    pub fn number(self) -> u8
        ensures { result ≡ number_of_write_error self }
    {
        match self {
            WriteError::BadImage(refusal) => refusal.number(),
            WriteError::NoRoom => 25,
        }
    }
}

impl From<Refusal> for WriteError {
    ghost from_gives = { λ refusal error. error ≡ BadImage refusal };

    fn from(refusal: Refusal) -> Self {
        WriteError::BadImage(refusal)
    }
}

// Why a text's bytes are not read.
#[derive(Clone, Copy, Debug, PartialEq, Eq)]
pub enum ReadError {
    // 27: a malformed line, record type or length, an end record whose address is not 0, or text after the end record
    Malformed,
    // 28: a checksum
    BadChecksum,
    // 29: a gap, overlap, byte past address FFFF or missing end
    BadSpan,
    // 25: the output is too short
    NoRoom,
}

impl ReadError {
    pub fn number(self) -> u8
        ensures { result ≡ number_of_read_error self }
    {
        match self {
            ReadError::Malformed => 27,
            ReadError::BadChecksum => 28,
            ReadError::BadSpan => 29,
            ReadError::NoRoom => 25,
        }
    }
}

// Writes the text of an image, and gives the number of characters. A refused call writes nothing, and characters past the text stay.
pub fn write(image: &[u8], text: &mut [u8]) -> Result<usize, WriteError>
    ensures { HexWrites image.now text.old text.new result }
{
    image::check(image)?;
    let n = writing::text_length(image.len());
    if text.len() < n {
        return Err(WriteError::NoRoom);
    }
    writing::put_text(image, text);
    Ok(n)
}

// Reads the bytes that a text's records say, an image's or any others, and gives their number. A refused call writes nothing, and bytes past the
// answer stay.
pub fn read(text: &[u8], bytes: &mut [u8]) -> Result<usize, ReadError>
    ensures { HexReads text.now bytes.old bytes.new result }
{
    let n = scan::scan(text)?;
    if bytes.len() < n {
        return Err(ReadError::NoRoom);
    }
    bytes::put_bytes(text, bytes, n);
    Ok(n)
}
