// The image reader: it accepts an image and says where its routines stand, or gives the number of the first test that fails.
#![tactic(auto)]

mod code;
mod marks;
pub mod number;
mod range;
pub mod routines;
mod rows;
mod step;

ghost use Rattle.std.specs.Prelude.{◌≡◌, ◌≤◌, length};
ghost use Rattle.image.specs.Layout.{routine_count, start_of, program_of, starts_in};
ghost use Rattle.image.specs.Image.{routines_verdict, image_verdict, image_answer};
ghost use Rattle.image.specs.Marks.{Blank};

use crate::code::check_routine;
use command::byte_at;

// A routine's row with the place of its code: its slots, its arguments, its code's first byte in the image and its code's length.
#[derive(Clone, Copy, Debug, PartialEq, Eq)]
pub struct Row {
    pub slots: u8,
    pub arguments: u8,
    pub start: u16,
    pub length: u16,
}

// An accepted image's routines: their count and, for each, its row. A table of 32 with its count, since the machine has no heap.
#[derive(Clone, Copy, Debug, PartialEq, Eq)]
pub struct Program {
    pub count: u8,
    pub rows: [Row; 32],
}

impl Program {
    // Where each routine's code starts, as an array that can be lent. By a loop: the array's `map` adds 800 instructions to each run's start.
    pub fn starts(self) -> [u16; 32]
        ensures { result ≡ starts_in self }
    {
        let mut starts = [0u16; 32];
        for r in 0..32 {
            starts[r] = self.rows[r].start;
        }
        starts
    }
}

// Why an image is refused.
#[derive(Clone, Copy, Debug, PartialEq, Eq)]
pub enum Refusal {
    // 1: empty, over 4,096 bytes, rows past the end, or total length wrong
    BadLength,
    // 2: routine count
    BadCount,
    // 3: a row's values
    BadRow,
    // 4: unknown byte
    UnknownByte,
    // 5: operands cut off
    OperandsCutOff,
    // 6: slot, argument run or routine out of range
    OutOfRange,
    // 7: the last command is not 07 or 0D
    BadEnd,
    // 8: a target is no command's start in its routine
    BadTarget,
}

// The tests of the routines' codes, one routine after the other. Each code has its own part of the marks.
fn routines_verdict(image: &[u8], count: usize, marks: &mut [u8]) -> Result<(), Refusal>
    requires { (count ≡ routine_count image.now) × (count ≤ 32) × (start_of image.now count ≡ length image.now) × (length image.now ≤ length marks.old) × Blank marks.old }
    ensures { result ≡ routines_verdict image.now count 0 }
{
    let mut start = 4 * count + 1;
    for r in 0..count {
        let end = start + rows::length_of(image, r);
        let code = &image[start..end];
        let slots = byte_at(image, 4 * r + 1);
        check_routine(image, code, slots, &mut marks[start..end])?;
        start = end;
    }
    Ok(())
}

// All tests, in document 01's order.
fn verdict_of(image: &[u8]) -> Result<(), Refusal>
    ensures { result ≡ image_verdict image.now }
{
    let n = image.len();
    if n == 0 || 4096 < n {
        return Err(Refusal::BadLength);
    }
    let count = usize::from(byte_at(image, 0));
    if count == 0 || 32 < count {
        return Err(Refusal::BadCount);
    }
    if n < 4 * count + 1 || n != rows::codes_end(image, count) {
        return Err(Refusal::BadLength);
    }
    if !rows::rows_good(image, count) {
        return Err(Refusal::BadRow);
    }
    let mut marks = [0u8; 4096];
    routines_verdict(image, count, &mut marks)
}

fn program_of(image: &[u8]) -> Program
    requires { (routine_count image.now ≤ 32) × (start_of image.now (routine_count image.now) ≤ 4096) }
    ensures { result ≡ program_of image.now }
{
    let count = byte_at(image, 0);
    let rows = rows::rows_of(image, usize::from(count));
    Program { count, rows }
}

// Reads an image: its program, or why it is refused. It takes any bytes, of any length.
pub fn check(image: &[u8]) -> Result<Program, Refusal>
    ensures { result ≡ image_answer image.now }
{
    verdict_of(image)?;
    Ok(program_of(image))
}
