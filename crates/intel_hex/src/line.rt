// A record's line at a position of a text.
ghost use Rattle.std.specs.Prelude.{◌≡◌, ◌+◌, ◌*◌, ◌<◌, ◌≤◌, true, length};
ghost use Rattle.intel_hex.specs.Found.{sum_at, end_at, number_of_type, Begun, FullAt, LineFound};

use crate::digits::byte;
use crate::full::full_sum;

// A record of another type is malformed.
#[derive(Clone, Copy, Debug, PartialEq, Eq)]
pub enum RecordType {
    Data,
    End,
}

impl RecordType {
    fn number(self) -> u32
        ensures { result ≡ number_of_type self }
    {
        match self {
            RecordType::Data => 0,
            RecordType::End => 1,
        }
    }
}

// What a line says, and where the next one begins.
#[derive(Clone, Copy)]
pub struct HexRecord {
    pub count: usize,
    pub address: usize,
    pub kind: RecordType,
    pub sum: u32,
    pub next: usize,
}

// How many characters end a line at a position: none at the text's end, LF, or CR LF.
pub fn line_end(text: &[u8], at: usize) -> Option<usize>
    requires { at ≤ length text.now }
    ensures { result ≡ end_at text.now at }
{
    if at == text.len() {
        Some(0)
    } else if text[at] == b'\n' {
        Some(1)
    } else if text[at] == b'\r' && at + 1 < text.len() && text[at + 1] == b'\n' {
        Some(2)
    } else {
        None
    }
}

// The weights of so many pairs of characters, added up: more than 8,191 where a character is no digit.
fn sum(text: &[u8], at: usize, count: usize) -> u32
    requires { (at + 2 * count ≤ length text.now) × (count ≤ 16) }
    ensures { result ≡ sum_at text.now at count }
{
    let mut sum = 0;
    for i in 0..count {
        sum += byte(text, at + 2 * i);
    }
    sum
}

// The line of a record by its count, its type and what stands for the sum of its data.
fn line_of(text: &[u8], at: usize, count: usize, kind: RecordType, inner: u32) -> Option<HexRecord>
    requires { Begun text.now at count kind inner }
    ensures { LineFound text.now at result }
{
    let high = byte(text, at + 3);
    let low = byte(text, at + 5);
    let sum = count as u32 + high + low + kind.number() + inner + byte(text, at + 9 + 2 * count);
    if 8191 < sum {
        return None;
    }
    let end = at + 11 + 2 * count;
    let next = end + line_end(text, end)?;
    let address = (256 * high + low) as usize;
    Some(HexRecord {
        count,
        address,
        kind,
        sum,
        next,
    })
}

// Does a line say a count of 16 and type 00, and may it be whole?
fn is_full(text: &[u8], at: usize) -> bool
    requires { at + 11 ≤ length text.now }
    ensures { result ≡ true → FullAt text.now at }
{
    43 <= text.len() - at
        && text[at + 1] == b'1'
        && text[at + 2] == b'0'
        && text[at + 7] == b'0'
        && text[at + 8] == b'0'
}

// The line at a position. A full data record, as most are, is told by its characters.
pub fn line_at(text: &[u8], at: usize) -> Option<HexRecord>
    requires { at < length text.now }
    ensures { LineFound text.now at result }
{
    let left = text.len() - at;
    if left < 11 || text[at] != b':' {
        return None;
    }
    if is_full(text, at) {
        return line_of(text, at, 16, RecordType::Data, full_sum(text, at + 9));
    }
    let count = byte(text, at + 1) as usize;
    if 16 < count || left < 11 + 2 * count {
        return None;
    }
    let kind = match byte(text, at + 7) {
        0 => RecordType::Data,
        1 => RecordType::End,
        _ => return None,
    };
    line_of(text, at, count, kind, sum(text, at + 9, count))
}
