// Text put into a buffer at a position. Each function gives the position after it; what does not fit is left out. No position is too large for
// a number: a line begins below 2 ^ 32 and gets fewer than 2 ^ 32 numbers, and a word, like every slice, has fewer than 2 ^ 63 bytes.
#![tactic(auto)]

ghost use Rattle.std.specs.Prelude.{◌≡◌, [], ◌∷◌, ◌++◌, ◌<◌, ◌≤◌, ◌+◌, ◌*◌, ◌%◌, length, take};
ghost use Rattle.text.specs.Text.{decimal_of, spaced, line, entry_line, entry_lines};
ghost use Rattle.text.specs.Buffer.{Put, Fills};

fn put(output: &mut [u8], at: usize, byte: u8) -> usize
    requires { at < 18000000000000000000 }
    ensures { Put (byte ∷ []) output.old at result output.new }
{
    if at < output.len() {
        output[at] = byte;
    }
    at + 1
}

fn put_text(output: &mut [u8], at: usize, text: &[u8]) -> usize
    requires { at < 4294967296 }
    ensures { Put text.now output.old at result output.new }
{
    let mut next = at;
    for byte in text {
        next = put(output, next, *byte);
    }
    next
}

// The last digit of a number, as a character.
fn digit(n: u32) -> u8
    ensures { result ≡ 48 + n % 10 }
{
    (n % 10) as u8 + 48
}

// No `write!`: std says what a `Display` writes where it gives `Ok`, and never that it does; here each number is put.
fn put_decimal(output: &mut [u8], at: usize, n: u32) -> usize
    requires { at < 17000000000000000000 }
    ensures { Put (decimal_of n) output.old at result output.new }
{
    if n < 10 {
        return put(output, at, digit(n));
    }
    let next = put_decimal(output, at, n / 10);
    put(output, next, digit(n))
}

// A number after a blank.
fn put_spaced(output: &mut [u8], at: usize, n: u32) -> usize
    requires { at < 16000000000000000000 }
    ensures { Put (spaced n) output.old at result output.new × (result ≤ at + 11) }
{
    let next = put(output, at, b' ');
    put_decimal(output, next, n)
}

// A word and numbers, of which the first 4,294,967,295 are put.
pub fn put_line(output: &mut [u8], at: u32, word: &[u8], numbers: &[u32]) -> usize
    ensures { Put (line word.now (take 4294967295 numbers.now)) output.old at result output.new }
{
    let mut next = put_text(output, at as usize, word);
    for number in &numbers[..numbers.len().min(4294967295)] {
        next = put_spaced(output, next, *number);
    }
    put(output, next, b'\n')
}

// The line of an entry: its number and its log byte.
fn put_entry(output: &mut [u8], at: usize, number: u32, log: u8) -> usize
    requires { (at < 700000) × (number < 16384) }
    ensures { Put (entry_line number log) output.old at result output.new × (result ≤ at + 10) }
{
    let a = put_decimal(output, at, number);
    let b = put_spaced(output, a, u32::from(log));
    put(output, b, b'\n')
}

// The lines of a log, from the front. A schedule has at most 16,384 entries, and so much of a log gets lines.
pub fn put_log(output: &mut [u8], log: &[u8]) -> usize
    ensures { Fills (entry_lines 0 (take 16384 log.now)) output.old 163840 result output.new }
{
    let mut at = 0;
    for (number, byte) in log[..log.len().min(16384)].iter().enumerate() {
        at = put_entry(output, at, number as u32, *byte);
    }
    at
}
