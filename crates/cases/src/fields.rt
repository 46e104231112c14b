// Fields as numbers and as bytes. Each thing that cannot be read prints a `bad line`, and something stands for it.
ghost use Rattle.std.specs.Prelude.{◌≡◌, ◌≤◌, ◌<◌, length, IfOk, IfSome};
ghost use Rattle.cases.specs.Digits.{digit_value};

use crate::print::bad_line;
use crate::reading::{Line, cut, is_blank};
use std::alloc::AllocError;
use std::io;

// A digit's number, in base 10 or 16.
#[tactic(auto, unfolding(crate::specs::Digits::digit_value))]
pub fn value(letter: u8, base: u8) -> Option<u8>
    ensures is { result ≡ digit_value letter base }
    ensures small { IfSome result (λ d. d < 16) }
{
    match letter {
        b'0'..=b'9' => Some(letter - b'0'),
        b'a'..=b'f' if base == 16 => Some(letter - b'a' + 10),
        _ => None,
    }
}

// The same, and 0 of what is none.
pub fn digit(rt: &impl Print, letter: u8, base: u8) -> io::Result<u8>
    ensures { IfOk result (λ d. d < 16) }
{
    match value(letter, base) {
        Some(d) => Ok(d),
        None => {
            bad_line(rt)?;
            Ok(0)
        }
    }
}

// A decimal number; one that grows too large ends before that digit. A letter that is no digit counts as 0 and is told. This is no `parse`, since
// that takes a `+` too, and tells one wrong letter of many.
fn decimal(rt: &impl Print, field: &[u8]) -> io::Result<u64> {
    if field.is_empty() {
        bad_line(rt)?;
    }
    let mut n: u64 = 0;
    for letter in field {
        let digit = u64::from(digit(rt, *letter, 10)?);
        let Some(more) = n.checked_mul(10).and_then(|tens| tens.checked_add(digit)) else {
            bad_line(rt)?;
            break;
        };
        n = more;
    }
    Ok(n)
}

fn is_good(letter: &u8) -> bool {
    value(*letter, 16).is_some()
}

// Puts the bytes of digits behind others as often as told, while they fit, if all are good; gives how often that is still to be done. Nearly all words
// are such, and an `io::Result`, which is large, is left to the others.
fn push_good(digits: &[u8], times: u64, most: usize, bytes: &mut Vec<u8>) -> Result<u64, AllocError>
    requires { length bytes.old.items ≤ most }
    ensures { length bytes.new.items ≤ most }
{
    let count = digits.len() / 2;
    if count == 0 || digits.len() % 2 != 0 || !digits.iter().all(is_good) {
        return Ok(times);
    }
    for done in 0..times {
        let start = bytes.len();
        if most - start < count {
            return Ok(times - done);
        }
        for k in 0..count {
            let high = value(digits[2 * k], 16).unwrap_or(0);
            let low = value(digits[2 * k + 1], 16).unwrap_or(0);
            bytes.push(high * 16 + low)?;
        }
    }
    Ok(0)
}

// Puts the bytes of digits behind others, of which there are at most `most` then.
fn push_digits(rt: &impl Print, digits: &[u8], most: usize, bytes: &mut Vec<u8>) -> io::Result<()>
    requires { length bytes.old.items ≤ most }
    ensures { length bytes.new.items ≤ most }
{
    for pair in digits.chunks(2) {
        let [high, low] = pair else {
            return bad_line(rt);
        };
        if bytes.len() == most {
            return bad_line(rt);
        }
        let byte = digit(rt, *high, 16)? * 16 + digit(rt, *low, 16)?;
        bytes.push(byte)?;
    }
    Ok(())
}

// The same of a word, as many times as it says.
fn push_word(rt: &impl Print, word: &[u8], most: usize, bytes: &mut Vec<u8>) -> io::Result<()>
    requires { length bytes.old.items ≤ most }
    ensures { length bytes.new.items ≤ most }
{
    match word.iter().position(|letter| *letter == b'*') {
        None => push_digits(rt, word, most, bytes),
        Some(star) => {
            let times = decimal(rt, &word[..star])?;
            let digits = &word[star + 1..];
            if digits.is_empty() {
                return Ok(()); // however many times
            }
            for _ in 0..push_good(digits, times, most, bytes)? {
                push_digits(rt, digits, most, bytes)?;
            }
            Ok(())
        }
    }
}

// A number that is to be at most `most`, and is that where it is more.
fn number(rt: &impl Print, field: &[u8], most: u64) -> io::Result<u64>
    ensures { IfOk result (λ n. n ≤ most) }
{
    let n = decimal(rt, field)?;
    if most < n {
        bad_line(rt)?;
    }
    Ok(n.min(most))
}

// Fields as numbers, at most four.
fn numbers(rt: &(impl Print + AllocGlobal), fields: &[u8]) -> io::Result<Vec<u32>>
    ensures { IfOk result (λ numbers. length numbers.items ≤ 4) }
{
    let mut numbers = Vec::new(rt.alloc());
    let blanks = fields.iter().filter(|byte| is_blank(byte)).count();
    for k in 0..blanks + 1 {
        if numbers.len() == 4 {
            bad_line(rt)?;
            break;
        }
        let field = fields.split(is_blank).nth(k).unwrap_or(&[]);
        numbers.push(number(rt, field, 4_294_967_295)? as u32)?;
    }
    Ok(numbers)
}

// Words as bytes, at most `most`.
fn bytes(rt: &(impl Print + AllocGlobal), text: &[u8], most: usize) -> io::Result<Vec<u8>>
    ensures { IfOk result (λ bytes. length bytes.items ≤ most) }
{
    let mut bytes = Vec::new(rt.alloc());
    let mut rest = text;
    while !rest.is_empty() {
        let (word, after) = cut(rest);
        if push_good(word, 1, most, &mut bytes)? != 0 {
            push_word(rt, word, most, &mut bytes)?;
        }
        rest = after;
    }
    Ok(bytes)
}

impl Line<'_> {
    // Field k as a number, as above.
    pub fn number(self, rt: &impl Print, k: usize, most: u64) -> io::Result<u64>
        ensures { IfOk result (λ n. n ≤ most) }
    {
        number(rt, self.text.split(is_blank).nth(k).unwrap_or(&[]), most)
    }

    // The fields from field k on as numbers, at most four; none where there is no such field.
    pub fn numbers(self, rt: &(impl Print + AllocGlobal), k: usize) -> io::Result<Vec<u32>>
        ensures { IfOk result (λ numbers. length numbers.items ≤ 4) }
    {
        let rest = self.from_field(k).text;
        if rest.is_empty() {
            return Ok(Vec::new(rt.alloc()));
        }
        numbers(rt, rest)
    }

    // The fields from field k on as bytes, at most `most`.
    pub fn bytes(
        self,
        rt: &(impl Print + AllocGlobal),
        k: usize,
        most: usize,
    ) -> io::Result<Vec<u8>>
        ensures { IfOk result (λ bytes. length bytes.items ≤ most) }
    {
        bytes(rt, self.from_field(k).text, most)
    }
}
