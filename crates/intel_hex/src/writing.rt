// The text of bytes, line by line.
ghost use Rattle.std.specs.Prelude.{◌≡◌, ◌+◌, ◌*◌, ◌/◌, ◌%◌, ◌<◌, ◌≤◌, ◌==◌, cond, [], ◌∷◌, length};
ghost use Rattle.hex_format.specs.Digits.{capital as capital_of};
ghost use Rattle.hex_format.specs.Text.{pairs_of, total, record_line, hex_of};
ghost use Rattle.intel_hex.specs.Answers.{text_length};
ghost use Rattle.intel_hex.specs.Found.{PutsText, head_of, Doubled, check_of};

// The two digits of each byte.
static PAIRS: [u8; 512] = *b"\
    000102030405060708090A0B0C0D0E0F101112131415161718191A1B1C1D1E1F\
    202122232425262728292A2B2C2D2E2F303132333435363738393A3B3C3D3E3F\
    404142434445464748494A4B4C4D4E4F505152535455565758595A5B5C5D5E5F\
    606162636465666768696A6B6C6D6E6F707172737475767778797A7B7C7D7E7F\
    808182838485868788898A8B8C8D8E8F909192939495969798999A9B9C9D9E9F\
    A0A1A2A3A4A5A6A7A8A9AAABACADAEAFB0B1B2B3B4B5B6B7B8B9BABBBCBDBEBF\
    C0C1C2C3C4C5C6C7C8C9CACBCCCDCECFD0D1D2D3D4D5D6D7D8D9DADBDCDDDEDF\
    E0E1E2E3E4E5E6E7E8E9EAEBECEDEEEFF0F1F2F3F4F5F6F7F8F9FAFBFCFDFEFF";

// The characters that the text of so many bytes takes.
pub fn text_length(n: usize) -> usize
    requires { n ≤ 4096 }
    ensures { result ≡ text_length n }
{
    let full = 44 * (n / 16);
    let rest = n % 16;
    if rest == 0 {
        return full + 12;
    }
    full + (12 + 2 * rest) + 12
}

// The two digits of a byte.
fn put_byte(text: &mut [u8], at: usize, byte: u8)
    requires { at + 2 ≤ length text.old }
    ensures { PutsText (pairs_of (byte ∷ [])) text.old at text.new }
{
    let k = 2 * usize::from(byte);
    text[at] = PAIRS[k];
    text[at + 1] = PAIRS[k + 1];
}

// A data record's line up to its data.
fn put_head(count: u8, address: u16, text: &mut [u8], at: usize)
    requires { at + 9 ≤ length text.old }
    ensures { PutsText (head_of count address) text.old at text.new }
{
    let [high, low] = address.to_be_bytes();
    text[at] = b':';
    put_byte(text, at + 1, count);
    put_byte(text, at + 3, high);
    put_byte(text, at + 5, low);
    put_byte(text, at + 7, 0);
}

// The data of a record of fewer bytes, which is also added up.
fn put_rest(bytes: &[u8], text: &mut [u8], at: usize) -> u8
    requires { at + 2 * length bytes.now ≤ length text.old }
    ensures { PutsText (pairs_of bytes.now) text.old at text.new × (result ≡ total bytes.now % 256) }
{
    let mut sum: u8 = 0;
    for (i, byte) in bytes.iter().enumerate() {
        put_byte(text, at + 2 * i, *byte);
        sum = sum.wrapping_add(*byte);
    }
    sum
}

// The character of a digit.
fn capital(d: u8) -> u8
    requires { d ≤ 200 }
    ensures { result ≡ capital_of d }
{
    if 9 < d { 55 + d } else { 48 + d }
}

// Each of 16 bytes twice. (A loop over 32 places with `bytes[i / 2]` is not made a vector of, and takes five times as long.)
fn doubled(bytes: &[u8]) -> [u8; 32]
    requires { length bytes.now ≡ 16 }
    ensures { Doubled bytes.now 32 result }
{
    let mut twice = [0u8; 32];
    for i in 0..16 {
        twice[2 * i] = bytes[i];
        twice[2 * i + 1] = bytes[i];
    }
    twice
}

// The digit of a byte: of each two the high one is the first.
fn digit(i: usize, byte: u8) -> u8
    ensures { (result ≡ cond (i % 2 == 0) (byte / 16) (byte % 16)) × (result ≤ 15) }
{
    if i % 2 == 0 { byte / 16 } else { byte % 16 }
}

// The data of a full record, which is also added up; two loops without a branch, which the compiler makes vectors of. (They go by index, as
// `doubled` does: over `bytes.iter()` the number of turns is not known, and that takes a third more instructions.)
fn put_full(bytes: &[u8], text: &mut [u8], at: usize) -> u8
    requires { (length bytes.now ≡ 16) × (at + 32 ≤ length text.old) }
    ensures { PutsText (pairs_of bytes.now) text.old at text.new × (result ≡ total bytes.now % 256) }
{
    let twice = doubled(bytes);
    for i in 0..32 {
        text[at + i] = capital(digit(i, twice[i]));
    }
    let mut sum: u8 = 0;
    for k in 0..16 {
        sum = sum.wrapping_add(bytes[k]);
    }
    sum
}

// A record's data, which is also added up. (It is inlined, as `put_line` is: where the compiler knows the count of a full record, it writes it in
// a tenth fewer instructions.)
#[inline(always)]
fn put_data(bytes: &[u8], text: &mut [u8], at: usize) -> u8
    requires { at + 2 * length bytes.now ≤ length text.old }
    ensures { PutsText (pairs_of bytes.now) text.old at text.new × (result ≡ total bytes.now % 256) }
{
    if bytes.len() == 16 {
        put_full(bytes, text, at)
    } else {
        put_rest(bytes, text, at)
    }
}

// A record's checksum, and the LF.
fn put_check(count: u8, address: u16, inner: u8, text: &mut [u8], at: usize)
    requires { at + 3 ≤ length text.old }
    ensures { PutsText (check_of count address inner) text.old at text.new }
{
    let [high, low] = address.to_be_bytes();
    let place = high.wrapping_add(low);
    let sum = count.wrapping_add(place.wrapping_add(inner));
    put_byte(text, at, 0u8.wrapping_sub(sum));
    text[at + 2] = b'\n';
}

// A data record's line.
#[inline(always)]
fn put_line(bytes: &[u8], address: u16, text: &mut [u8], at: usize)
    requires { (length bytes.now ≤ 16) × (at + 12 + 2 * length bytes.now ≤ length text.old) }
    ensures { PutsText (record_line 0 address bytes.now) text.old at text.new }
{
    let n = bytes.len();
    put_head(n as u8, address, text, at);
    let inner = put_data(bytes, text, at + 9);
    put_check(n as u8, address, inner, text, at + 9 + 2 * n);
}

// The end record's line.
fn put_end(text: &mut [u8], at: usize)
    requires { at + 12 ≤ length text.old }
    ensures { PutsText (record_line 1 0 []) text.old at text.new }
{
    text[at..at + 12].copy_from_slice(b":00000001FF\n");
}

// The lines of all records.
pub fn put_text(image: &[u8], text: &mut [u8])
    requires { (length image.now ≤ 4096) × (text_length (length image.now) ≤ length text.old) }
    ensures { PutsText (hex_of image.now) text.old 0 text.new }
{
    let full = image.len() / 16;
    for k in 0..full {
        let from = 16 * k;
        put_line(&image[from..from + 16], from as u16, text, 44 * k);
    }
    let from = 16 * full;
    let at = 44 * full;
    if from < image.len() {
        let rest = image.len() - from;
        put_line(&image[from..], from as u16, text, at);
        put_end(text, at + 12 + 2 * rest);
    } else {
        put_end(text, at);
    }
}
