// The print program's input taken apart: which numbers it gives, and where its image and its schedule stand. Numbers have one, two or four bytes,
// the low byte first. Bytes past the end read as 0. Each function takes the bytes alone: a struct of them would say no more than its one field.
#![tactic(auto)]

ghost use Rattle.std.specs.Prelude.{◌≡◌, ◌<◌, ◌≤◌, length};
ghost use Rattle.reading.specs.Reading.{pair_at, four_bytes_at, words_from, ArgumentsRead, core_count, argument_count, allowance_at, image_at, schedule_at};

use command::byte_at;

fn pair_at(bytes: &[u8], at: usize) -> usize
    requires { at < 1000000 }
    ensures { (result ≡ pair_at bytes.now at) × (result < 65536) }
{
    usize::from(u16::from_le_bytes([byte_at(bytes, at), byte_at(bytes, at + 1)]))
}

fn word_at(bytes: &[u8], at: usize) -> u32
    requires { at < 1000000 }
    ensures { result ≡ four_bytes_at bytes.now at }
{
    u32::from_le_bytes([
        byte_at(bytes, at),
        byte_at(bytes, at + 1),
        byte_at(bytes, at + 2),
        byte_at(bytes, at + 3),
    ])
}

// Words from a position on, over all that are given.
fn read_words(bytes: &[u8], at: usize, words: &mut [u32])
    requires { (at < 1000) × (length words.old ≤ 255) }
    ensures { words.new ≡ words_from bytes.now at (length words.old) }
{
    for (i, word) in words.iter_mut().enumerate() {
        *word = word_at(bytes, at + 4 * i);
    }
}

pub fn core_count(input: &[u8]) -> u8
    ensures { result ≡ core_count input.now }
{
    byte_at(input, 0)
}

pub fn argument_count(input: &[u8]) -> usize
    ensures { (result ≡ argument_count input.now) × (result ≤ 255) }
{
    usize::from(byte_at(input, 1))
}

// The arguments, to the front of words; the words stay 255, and those past the arguments stay as they were.
pub fn read_arguments(input: &[u8], words: &mut [u32; 255])
    ensures { ArgumentsRead input.now words.old words.new }
{
    read_words(input, 2, &mut words[..argument_count(input)])
}

fn allowance_at(input: &[u8]) -> usize
    ensures { (result ≡ allowance_at input.now) × (result ≤ 1022) }
{
    2 + 4 * argument_count(input)
}

pub fn allowance(input: &[u8]) -> u32
    ensures { result ≡ four_bytes_at input.now (allowance_at input.now) }
{
    word_at(input, allowance_at(input))
}

// Where the image begins.
pub fn image_at(input: &[u8]) -> usize
    ensures { (result ≡ image_at input.now) × (result ≤ 1028) }
{
    allowance_at(input) + 6
}

// Where the image ends and the schedule begins.
pub fn schedule_at(input: &[u8]) -> usize
    ensures { result ≡ schedule_at input.now }
{
    image_at(input) + pair_at(input, allowance_at(input) + 4)
}
