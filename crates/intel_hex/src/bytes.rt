// The bytes that a text's records say, read in a second pass once the text has passed its tests.
ghost use Rattle.std.specs.Prelude.{◌≡◌, ◌+◌, ◌*◌, ◌≤◌, false, ◌++◌, length, drop};
ghost use Rattle.std.proofs.lemmas.List.Edits.{sets};
ghost use Rattle.hex_format.specs.Lines.{text_lines};
ghost use Rattle.hex_format.specs.Reading.{malformed, said_by};
ghost use Rattle.intel_hex.specs.Found.{Digits, pair_at, pairs_at};

use crate::digits::byte;
use crate::full::put_full;
use crate::line::line_end;

// So many bytes, read at one position and stored at another.
fn put_pairs(text: &[u8], from: usize, bytes: &mut [u8], at: usize, n: usize)
    requires { Digits text.now from (2 * n) × (from + 2 * n ≤ length text.now) × (at + n ≤ length bytes.old) }
    ensures { bytes.new ≡ sets bytes.old at (pairs_at text.now from n) }
{
    for i in 0..n {
        bytes[at + i] = byte(text, from + 2 * i) as u8;
    }
}

// A record's data.
fn put_data(text: &[u8], from: usize, bytes: &mut [u8], at: usize, n: usize)
    requires { Digits text.now from (2 * n) × (from + 2 * n ≤ length text.now) × (at + n ≤ length bytes.old) }
    ensures { bytes.new ≡ sets bytes.old at (pairs_at text.now from n) }
{
    if n == 16 {
        put_full(text, from, bytes, at);
    } else {
        put_pairs(text, from, bytes, at, n);
    }
}

// The count of a record; 16 is told by its characters.
fn count_at(text: &[u8], from: usize) -> usize
    requires { from + 3 ≤ length text.now }
    ensures { (result ≡ pair_at text.now (from + 1)) × (result ≤ 139264) }
{
    if text[from + 1] == b'1' && text[from + 2] == b'0' {
        16
    } else {
        byte(text, from + 1) as usize
    }
}

pub fn put_bytes(text: &[u8], bytes: &mut [u8], count: usize)
    requires { (malformed (text_lines text.now) ≡ false) × (count ≡ length (said_by (text_lines text.now))) × (count ≤ length bytes.old) }
    ensures { bytes.new ≡ said_by (text_lines text.now) ++ drop count bytes.old }
{
    let mut from: usize = 0;
    let mut at: usize = 0;
    while at < count {
        let n = count_at(text, from);
        put_data(text, from + 9, bytes, at, n);
        at += n;
        let end = from + 11 + 2 * n;
        from = end + line_end(text, end).unwrap();
    }
}
