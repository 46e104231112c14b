// The serial run (document 01's plain run): each fork is a call.
#![tactic(auto)]

mod act;
pub mod answer;
mod frame;
mod padded;
mod place;
mod row;

ghost use Rattle.std.specs.Prelude.{◌≡◌, ◌-◌, ◌≤◌, length, get_or};
ghost use Rattle.command.specs.Weight.{standard_weights};
ghost use Rattle.image.specs.Layout.{program_of, starts_in};
ghost use Rattle.thread.specs.Job.{job_of};
ghost use Rattle.serial.specs.Serial.{ended_by, started_on, serial_of};
ghost use Rattle.serial.specs.Steps.{Padded, Come, ForkReady, ForkFrom, RunFrom, left_of, serial_answer, refused_by};

use crate::act::code_start;
use crate::answer::{Finished, SerialAnswer, Stop, Stopped};
use crate::frame::{lay, put};
use crate::padded::pad;
use crate::place::Place;
use crate::row::{Fork, Row, run_row};
use command::weights;
use image::routines::arguments_of;
use thread::Fault;
use window::{Cut, Window};

// An open routine, as the definition of the run has it. The code holds its parts.
#[derive(Clone, Copy)]
pub struct Routine {
    pub routine: u8,
    pub position: u16,
    // one bit for each pending slot
    pub pending: u16,
    pub window: Window,
    pub slots: [u32; 16],
}

// What an effect leaves to the run once its slot or its word is written.
#[derive(Clone, Copy)]
enum Ask {
    // the routine goes on at a position
    GoOn(u16),
    // the routine goes on behind a join
    Join,
    // a child runs first: cut, routine, result slot, first argument's slot; the cut first, so that no single byte lies where GoOn has its position
    Call(u32, u8, u8, u8),
    // the routine ends with a value
    Return(u32),
    // the routine goes on behind a share of its words from an address on
    Share(u32),
}

// A routine's value, with what is left of the allowance.
#[derive(Clone, Copy)]
struct Returned {
    value: u32,
    left: u32,
}

// Why the run ended before a routine returned, with what is left of the allowance.
#[derive(Clone, Copy)]
struct Halted {
    by: Stop,
    left: u32,
}

// Carries out a fork: the child starts on its arguments, the parent's slots from the first on, in its part of the parent's window, and runs
// to its end; its value goes into the result slot. `depth` routines may be open from the parent on, itself included.
#[cycle(carry_fork_run_routine)]
fn carry_fork(
    image: &[u8],
    padded: &[u8; 4104],
    starts: &[u16; 32],
    parameters: &[u32],
    memory: &mut [u32],
    slots: &mut [u32; 16],
    at: &mut Place,
    fork: Fork,
    depth: u8,
) -> Result<(), Halted>
    requires { ForkReady image.now starts.now parameters.now (33 - depth) at.old slots.old memory.old fork × (depth ≤ 32) × Padded image.now padded.now }
    ensures { ForkFrom image.now starts.now parameters.now (33 - depth) at.old slots.old memory.old fork at.new slots.new memory.new result }
{
    let Some(Cut { child, rest }) = at.window.cut(fork.cut) else {
        // not met: the effect is a fork only where the cut is in range
        return Err(Halted {
            by: Stop::Fault(Fault::CutOutOfRange),
            left: at.left,
        });
    };
    if depth <= 1 {
        return Err(Halted {
            by: Stop::Depth,
            left: at.left,
        });
    }
    let from = fork.first as usize;
    let end = from + usize::from(arguments_of(image, fork.routine));
    let all = &slots[..];
    let returned = run_routine(
        image,
        padded,
        starts,
        parameters,
        memory,
        fork.routine,
        &all[from..end],
        child,
        at.left - fork.weight,
        depth - 1,
    )?;
    put(slots, fork.result, returned.value);
    at.pass_fork(at.position + 5, returned.left, rest, fork.result);
    Ok(())
}

// Runs a routine's commands from its start until it returns or a test is met. `depth` routines may be open from it on, itself included.
#[cycle(carry_fork_run_routine)]
fn run_routine(
    image: &[u8],
    padded: &[u8; 4104],
    starts: &[u16; 32],
    parameters: &[u32],
    memory: &mut [u32],
    routine: u8,
    arguments: &[u32],
    start: Window,
    most: u32,
    depth: u8,
) -> Result<Returned, Halted>
    requires { Come image.now starts.now parameters.now (33 - depth) (started_on routine arguments.now start) memory.old most × (depth ≤ 32) × (length arguments.now ≤ 16) × Padded image.now padded.now }
    ensures { RunFrom image.now starts.now parameters.now (33 - depth) (started_on routine arguments.now start) memory.old most memory.new result }
{
    // held by the loop: a constant table is laid out anew where it is named
    let weights = weights();
    let code = code_start(starts, routine);
    let mut slots = [0u32; 16];
    lay(&mut slots, arguments);
    let mut at = Place::first(routine, start, most);
    loop {
        let row = run_row(
            image, padded, &weights, code, &mut slots, parameters, memory, &mut at,
        )?;
        match row {
            Row::GoesOn => {}
            Row::Forks(fork) => carry_fork(
                image, padded, starts, parameters, memory, &mut slots, &mut at, fork, depth,
            )?,
            Row::Returns(value) => {
                return Ok(Returned {
                    value,
                    left: at.left,
                });
            }
        }
    }
}

// The answer, with the units of an allowance that are not left.
fn with_units(ending: Result<Returned, Halted>, allowance: u32) -> SerialAnswer
    requires { left_of ending ≤ allowance }
    ensures { result ≡ serial_answer allowance ending }
{
    match ending {
        Ok(returned) => Ok(Finished {
            result: returned.value,
            units: allowance - returned.left,
        }),
        Err(halted) => Err(Stopped {
            by: halted.by,
            units: allowance - halted.left,
        }),
    }
}

// The answer of a run that meets one of the tests before its first command.
fn refused(by: Stop) -> SerialAnswer
    ensures { result ≡ refused_by by }
{
    Err(Stopped { by, units: 0 })
}

// The serial run of an image on its arguments. It takes any bytes and words.
pub fn serial(
    image: &[u8],
    arguments: &[u32],
    parameters: &[u32],
    memory: &mut [u32],
    allowance: u32,
) -> SerialAnswer
    ensures { ended_by result memory.new ≡ serial_of (job_of image.now (starts_in (program_of image.now)) parameters.now allowance) arguments.now memory.old }
{
    let program = image::check(image)?;
    if arguments.len() != usize::from(arguments_of(image, 0)) {
        return refused(Stop::ArgumentCount);
    }
    if parameters.len() != 32 || memory.len() != 992 {
        return refused(Stop::BufferLength);
    }
    let starts = program.starts();
    let padded = pad(image);
    let ending = run_routine(
        image,
        &padded,
        &starts,
        parameters,
        memory,
        0,
        arguments,
        Window::root(),
        allowance,
        32,
    );
    with_units(ending, allowance)
}
