// The tests of a text, each over all its lines, in one pass.
ghost use Rattle.std.specs.Prelude.{◌≡◌};
ghost use Rattle.hex_format.specs.Lines.{text_lines};
ghost use Rattle.intel_hex.specs.Answers.{verdict_of};
ghost use Rattle.intel_hex.specs.Found.{scanned_as};

use crate::ReadError;
use crate::line::{RecordType, line_at};

// The answer where no line is malformed.
fn tested(bad_sum: bool, bad_span: bool, count: usize) -> Result<usize, ReadError>
    ensures { result ≡ scanned_as bad_sum bad_span count }
{
    if bad_sum {
        Err(ReadError::BadChecksum)
    } else if bad_span || 65536 < count {
        Err(ReadError::BadSpan)
    } else {
        Ok(count)
    }
}

// The answer, but for the room: the number of bytes, or the first test that fails.
pub fn scan(text: &[u8]) -> Result<usize, ReadError>
    ensures { result ≡ verdict_of (text_lines text.now) }
{
    let mut at: usize = 0;
    let mut count: usize = 0;
    let mut bad_sum = false;
    let mut bad_span = false;
    while at < text.len() {
        let found = line_at(text, at).ok_or(ReadError::Malformed)?;
        bad_sum |= found.sum % 256 != 0;
        match found.kind {
            RecordType::Data => {
                if found.count == 0 {
                    return Err(ReadError::Malformed);
                }
                bad_span |= found.address != count;
                count += found.count;
                at = found.next;
            }
            RecordType::End => {
                if found.count != 0 || found.address != 0 || found.next != text.len() {
                    return Err(ReadError::Malformed);
                }
                return tested(bad_sum, bad_span, count);
            }
        }
    }
    tested(bad_sum, true, count)
}
