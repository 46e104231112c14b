// The data of a full record, 16 bytes. Most records are full, and these loops are shaped for the compiler to make vectors of: so many turns as
// are known beforehand, no branch in them, and arithmetic on bytes alone.
ghost use Rattle.std.specs.Prelude.{◌≡◌, ◌+◌, ◌*◌, ◌≤◌, ◌%◌, ◌==◌, true, cond, length};
ghost use Rattle.std.proofs.lemmas.List.Edits.{sets};
ghost use Rattle.hex_format.specs.Digits.{is_digit, digit_value};
ghost use Rattle.intel_hex.specs.Found.{Valued, Weighs, Digits, pairs_at};

// The value of a digit, and at least 16 of any other character.
fn value(c: u8) -> u8
    ensures { Valued c result }
{
    let p = c.wrapping_sub(1);
    let number = c.wrapping_add(198).max(6).wrapping_add(10);
    let letter = (p % 32 + 64 * (p / 64)).wrapping_sub(54);
    number.min(letter)
}

// What a digit's value adds to its byte: of each two digits the high one is the first.
fn placed(i: usize, value: u8) -> u8
    ensures { value ≤ 15 → result ≡ cond (i % 2 == 0) (16 * value) value }
{
    if i % 2 == 0 { 16 * (value % 16) } else { value }
}

// The bytes of 32 characters, added up modulo 256; 8,192 where one is no digit.
pub fn full_sum(text: &[u8], at: usize) -> u32
    requires { at + 32 ≤ length text.now }
    ensures { Weighs text.now at 16 result }
{
    let mut sum: u8 = 0;
    let mut bad = false;
    for i in 0..32 {
        let v = value(text[at + i]);
        bad |= 15 < v;
        sum = sum.wrapping_add(placed(i, v));
    }
    if bad { 8192 } else { u32::from(sum) }
}

// The value of a digit.
fn plain(c: u8) -> u8
    ensures { is_digit c ≡ true → result ≡ digit_value c }
{
    let d = c % 32;
    d.wrapping_sub(16).min(d + 9)
}

// The bytes of 32 digits.
fn decode(text: &[u8], from: usize) -> [u8; 16]
    requires { Digits text.now from 32 × (from + 32 ≤ length text.now) }
    ensures { result ≡ pairs_at text.now from 16 }
{
    let mut part = [0u8; 16];
    for i in 0..16 {
        let high = plain(text[from + 2 * i]);
        let low = plain(text[from + 2 * i + 1]);
        part[i] = (16 * (high % 16)).wrapping_add(low);
    }
    part
}

// The bytes of 32 digits, stored.
pub fn put_full(text: &[u8], from: usize, bytes: &mut [u8], at: usize)
    requires { Digits text.now from 32 × (from + 32 ≤ length text.now) × (at + 16 ≤ length bytes.old) }
    ensures { bytes.new ≡ sets bytes.old at (pairs_at text.now from 16) }
{
    bytes[at..at + 16].copy_from_slice(&decode(text, from));
}
