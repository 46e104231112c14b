// Schedules by pattern. A pattern's words have two letters each, and stand for a byte. Block k is the pattern for the (k+1)th time:
//
// - hexadecimal digits: that byte.
// - `t0` to `t3`: thread (k + 0) % 32 to (k + 3) % 32; `u0`: thread 31 - k % 32.
// - `p0`: the next number, as a core below 4; `q0`: the next number, as a core below 5, so that some are out of range.
// - `r0`: the same number, as a thread below 33; `s0`: the same number, as another core below 4.
//
// The numbers look random; they are below 65,536.
ghost use Rattle.std.specs.Prelude.{◌≡◌, ◌<◌};

use cases::Line;
use std::io;

fn next_number(x: &mut u32) -> u32
    ensures { (result ≡ x.new) × (result < 65536) }
{
    *x = (*x % 65536 * 1103 + 12345) % 65536;
    *x
}

fn thread(block: usize, more: u8) -> u8
    ensures { result < 32 }
{
    ((block % 32) as u8 + more % 32) % 32
}

// The byte of a word of two letters, in a block, where the last number was x, if each digit is one.
fn byte_of(word: [u8; 2], block: usize, x: &mut u32) -> Option<u8> {
    Some(match word {
        [b't', more] => thread(block, cases::value(more, 10)?),
        [b'u', _] => 31 - thread(block, 0),
        [b'p', _] => (next_number(x) / 256 % 4) as u8,
        [b'q', _] => (next_number(x) / 256 % 5) as u8,
        [b'r', _] => (*x / 8 % 33) as u8,
        [b's', _] => (*x / 2048 % 4) as u8,
        [high, low] => cases::value(high, 16)? * 16 + cases::value(low, 16)?,
    })
}

// The byte of a word with a digit that is none, which is told and counts as 0.
fn told_byte_of(rt: &impl Print, word: [u8; 2], block: usize) -> io::Result<u8> {
    if let [b't', more] = word {
        return Ok(thread(block, cases::digit(rt, more, 10)?));
    }
    Ok(cases::digit(rt, word[0], 16)? * 16 + cases::digit(rt, word[1], 16)?)
}

// A word's letters. One that is missing is 0.
fn letters(word: &[u8]) -> [u8; 2] {
    match word {
        [kind, letter, ..] => [*kind, *letter],
        [kind] => [*kind, 0],
        [] => [0, 0],
    }
}

// The bytes that a line of entries tells: its SIZE bytes of its PATTERN.
pub fn bytes(rt: &(impl Print + AllocGlobal), entries: Line<'_>) -> io::Result<Vec<u8>> {
    let size = entries.number(rt, 1, 32768)? as usize;
    let pattern = match entries.from_field(2).text {
        [] => &[0], // a word without letters
        words => words,
    };
    let mut bytes = Vec::with_capacity(rt.alloc(), size)?;
    let mut x = 1;
    for block in 0..size {
        // a blank stands behind each word but the last
        for word in pattern.chunks(3) {
            if bytes.len() == size {
                return Ok(bytes);
            }
            let word = letters(word);
            // a schedule has thousands, and an `io::Result` is large: only a wrong digit makes one
            let byte = match byte_of(word, block, &mut x) {
                Some(byte) => byte,
                None => told_byte_of(rt, word, block)?,
            };
            bytes.push(byte)?;
        }
    }
    Ok(bytes)
}
