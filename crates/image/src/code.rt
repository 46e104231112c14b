// The tests of one routine's code, 4 to 8, in one pass over its commands and one look at the marks that it leaves.
ghost use Rattle.std.specs.Prelude.{◌≡◌, length};
ghost use Rattle.image.specs.Code.{routine_verdict};
ghost use Rattle.image.specs.Image.{in_range};
ghost use Rattle.image.specs.Marks.{Blank, WalkedBy, may_end};

use crate::Refusal;
use crate::marks::{all_met, ask_target};
use crate::step::test_at;

// What the pass finds where 4, 5 and 6 are passed: the last command's first byte, and whether each target is inside the code.
#[derive(Clone, Copy)]
struct Walked {
    last: u8,
    inside: bool,
}

fn walk(image: &[u8], code: &[u8], slots: u8, marks: &mut [u8]) -> Result<Walked, Refusal>
    requires { (length code.now ≡ length marks.old) × Blank marks.old }
    ensures { WalkedBy (in_range image.now slots) code.now marks.new result }
{
    let mut at = 0;
    let mut last = 0;
    let mut inside = true;
    while at < code.len() {
        let width = test_at(image, code, slots, at)?;
        marks[at] = 1;
        if !ask_target(code, at, marks) {
            inside = false;
        }
        last = code[at];
        at += width;
    }
    Ok(Walked { last, inside })
}

// May the command with this first byte stand last?
fn may_end(byte: u8) -> bool
    ensures { result ≡ may_end byte }
{
    byte == 7 || byte == 13
}

// The marks are this code's own, and blank.
pub fn check_routine(image: &[u8], code: &[u8], slots: u8, marks: &mut [u8]) -> Result<(), Refusal>
    requires { (length code.now ≡ length marks.old) × Blank marks.old }
    ensures { result ≡ routine_verdict (in_range image.now slots) code.now }
{
    let walked = walk(image, code, slots, marks)?;
    if !may_end(walked.last) {
        return Err(Refusal::BadEnd);
    }
    if !walked.inside || !all_met(marks) {
        return Err(Refusal::BadTarget);
    }
    Ok(())
}
