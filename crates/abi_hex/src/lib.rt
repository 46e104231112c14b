// Images as Intel HEX for C and Rust programs, in a library of its own: lent slices in, two words of an array out. A slice is passed as a
// pointer and a length, an array as a pointer.
#![tactic(auto)]

ghost use Rattle.std.specs.Prelude.{◌≡◌};
ghost use Rattle.intel_hex.specs.Answers.{hex_written, text_after, hex_read, bytes_after};
ghost use Rattle.abi_hex.specs.Words.{words_of, written_words, read_words};

use intel_hex::{ReadError, WriteError};

// A count, or the number of a refusal.
fn words(answer: Result<usize, u8>) -> [usize; 2]
    ensures { result ≡ words_of answer }
{
    match answer {
        Ok(n) => [1, n],
        Err(number) => [0, usize::from(number)],
    }
}

// Writes the text of an image. The answer's words: 1 and the number of characters; or 0 and the number that it is refused by.
#[unsafe(no_mangle)]
pub extern "C" fn hofnulda_hex_write(image: &[u8], text: &mut [u8], answer: &mut [usize; 2])
    ensures answer_after { answer.new ≡ written_words (hex_written image.now text.old) }
    ensures text_after { text.new ≡ text_after (hex_written image.now text.old) image.now text.old }
{
    *answer = words(intel_hex::write(image, text).map_err(WriteError::number));
}

// Reads the bytes that a text's records say. The answer's words: 1 and the number of bytes; or 0 and the number that it is refused by.
#[unsafe(no_mangle)]
pub extern "C" fn hofnulda_hex_read(text: &[u8], bytes: &mut [u8], answer: &mut [usize; 2])
    ensures answer_after { answer.new ≡ read_words (hex_read text.now bytes.old) }
    ensures bytes_after { bytes.new ≡ bytes_after (hex_read text.now bytes.old) text.now bytes.old }
{
    *answer = words(intel_hex::read(text, bytes).map_err(ReadError::number));
}
