// Numbers 4, 5 and 6 of one command: its width where it passes. Each first byte has an arm of its own, so that where the next command stands
// hangs on no table. A width of one byte would be packed with the variant into one number, for which the next command's place would have to wait.
ghost use Rattle.std.specs.Prelude.{◌≡◌, true, [], ◌∷◌, ◌≤◌, ◌<◌, length, take};
ghost use Rattle.command.specs.Command.{command_at};
ghost use Rattle.image.specs.Image.{in_range, all_slots, fork_in_range};
ghost use Rattle.image.specs.Step.{operand, tested_as, whole_as, ranged_as};

use crate::Refusal;
use crate::range::{all_slots, fork_in_range};

// A whole command.
fn ranged(good: bool, width: usize) -> Result<usize, Refusal>
    ensures { result ≡ ranged_as good width }
{
    if good {
        return Ok(width);
    }
    Err(Refusal::OutOfRange)
}

// A command of so many bytes whose first operands, so many, are slots.
fn slots_at(
    code: &[u8],
    slots: u8,
    at: usize,
    operands: usize,
    width: usize,
) -> Result<usize, Refusal>
    requires { (at < length code.now) × (operands < width) × (operands ≤ 3) }
    ensures { result ≡ whole_as code.now at width (all_slots slots (take operands (operand code.now at 1 ∷ operand code.now at 2 ∷ operand code.now at 3 ∷ []))) }
{
    if code.len() - at < width {
        return Err(Refusal::OperandsCutOff);
    }
    let first = at + 1;
    ranged(all_slots(slots, &code[first..first + operands]), width)
}

// 08 and 09
fn fork_at(image: &[u8], code: &[u8], slots: u8, at: usize) -> Result<usize, Refusal>
    requires { at < length code.now }
    ensures { result ≡ whole_as code.now at 5 (fork_in_range image.now slots (operand code.now at 1) (operand code.now at 2) (operand code.now at 3) (operand code.now at 4)) }
{
    if code.len() - at < 5 {
        return Err(Refusal::OperandsCutOff);
    }
    let good = fork_in_range(
        image,
        slots,
        code[at + 1],
        code[at + 2],
        code[at + 3],
        code[at + 4],
    );
    ranged(good, 5)
}

// 07
fn jump_at(code: &[u8], at: usize) -> Result<usize, Refusal>
    requires { at < length code.now }
    ensures { result ≡ whole_as code.now at 3 true }
{
    if code.len() - at < 3 {
        return Err(Refusal::OperandsCutOff);
    }
    Ok(3)
}

// The tests of the command at a position, in a routine of so many slots.
pub fn test_at(image: &[u8], code: &[u8], slots: u8, at: usize) -> Result<usize, Refusal>
    requires { at < length code.now }
    ensures { result ≡ tested_as (in_range image.now slots) (command_at code.now at) }
{
    match code[at] {
        1 => slots_at(code, slots, at, 1, 4),
        2 => slots_at(code, slots, at, 3, 4),
        3 => slots_at(code, slots, at, 3, 4),
        4 => slots_at(code, slots, at, 2, 3),
        5 => slots_at(code, slots, at, 2, 3),
        6 => slots_at(code, slots, at, 1, 4),
        7 => jump_at(code, at),
        8 => fork_at(image, code, slots, at),
        9 => fork_at(image, code, slots, at),
        10 => Ok(1),
        11 => Ok(1),
        12 => Ok(1),
        13 => slots_at(code, slots, at, 1, 2),
        14 => slots_at(code, slots, at, 1, 2),
        _ => Err(Refusal::UnknownByte),
    }
}
