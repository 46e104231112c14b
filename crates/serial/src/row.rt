// A row: a routine's own commands one after another, up to the first that is not its own.
ghost use Rattle.std.specs.Prelude.{◌≡◌};
ghost use Rattle.command.specs.Weight.{standard_weights};
ghost use Rattle.serial.specs.Steps.{Padded, RowReady, RowFrom};

use crate::act::{carry_out, cost_of};
use crate::answer::Stop;
use crate::padded::five_of;
use crate::place::Place;
use crate::{Ask, Halted};
use command::command_of;
use thread::Fault;

// A fork: where it cuts the window, the child's routine, the slot for its result, the first argument's slot, and its weight.
#[derive(Clone, Copy)]
pub struct Fork {
    pub cut: u32,
    pub routine: u8,
    pub result: u8,
    pub first: u8,
    pub weight: u32,
}

// What ended a row. Where the routine stands then is told by its place, which is changed and not handed on: a place by value in this answer made
// joins 1.6 times as slow.
#[derive(Clone, Copy)]
pub enum Row {
    // a join or a share, and the routine goes on behind it
    GoesOn,
    // a fork, at the routine's place
    Forks(Fork),
    // a return, with a value
    Returns(u32),
}

// Runs a row from a place on, to the place where it ends. `code` is where the routine's code starts.
pub fn run_row(
    image: &[u8],
    padded: &[u8; 4104],
    weights: &[u8; 15],
    code: usize,
    slots: &mut [u32; 16],
    parameters: &[u32],
    memory: &mut [u32],
    at: &mut Place,
) -> Result<Row, Halted>
    requires { RowReady image.now parameters.now code at.old slots.old memory.old × (weights.now ≡ standard_weights) × Padded image.now padded.now }
    ensures { RowFrom image.now parameters.now code at.old slots.old memory.old at.new slots.new memory.new result }
{
    let mut position = at.position;
    let mut left = at.left;
    loop {
        let five = five_of(padded, code, position);
        let cost = cost_of(weights, five[0]);
        if left < cost {
            return Err(Halted {
                by: Stop::Allowance,
                left,
            });
        }
        let effect = at.view(slots).effect(command_of(five), image);
        match carry_out(effect, slots, parameters, memory, position) {
            Ok(Ask::GoOn(next)) => {
                position = next;
                left -= cost;
            }
            Ok(Ask::Join) => {
                at.pass_join(position + 1, left - cost);
                return Ok(Row::GoesOn);
            }
            Ok(Ask::Call(cut, routine, result, first)) => {
                let fork = Fork {
                    cut,
                    routine,
                    result,
                    first,
                    weight: cost,
                };
                at.go_to(position, left);
                return Ok(Row::Forks(fork));
            }
            Ok(Ask::Return(value)) => {
                at.go_to(position, left - cost);
                return Ok(Row::Returns(value));
            }
            Ok(Ask::Share(s)) => {
                let Some(window) = at.window.share(s) else {
                    // not met: the effect is a share only where s is in range
                    return Err(Halted {
                        by: Stop::Fault(Fault::ShareOutOfRange),
                        left,
                    });
                };
                at.pass_share(position + 2, left - cost, window);
                return Ok(Row::GoesOn);
            }
            Err(by) => return Err(Halted { by, left }),
        }
    }
}
