// The rules of the machine: what each entry of a schedule does to its state. They are definitions (specs/); the code beside them is the types that
// the machine shares with them.
#![tactic(auto)]

ghost use Rattle.std.specs.Prelude.{◌≡◌, ◌<◌};
ghost use Rattle.thread.specs.Job.{offset_at};
ghost use Rattle.rules.specs.Lent.{job_in};
ghost use Rattle.rules.specs.Denial.{number_of_denial, log_of};

use image::routines::place_in_image;
use thread::Fault;

// What stays the same in a run: the image, where its routines' codes start, the parameter words and the allowance.
#[derive(Clone, Copy)]
pub struct Job<'a> {
    pub image: &'a [u8],
    pub starts: &'a [u16],
    pub parameters: &'a [u32],
    pub allowance: u32,
}

impl Job<'_> {
    // Where a position of routine r stands in the image.
    pub fn place_of(&self, r: u8, position: u16) -> usize
        ensures { (result ≡ offset_at (job_in self.now) r position) × (result < 131072) }
    {
        place_in_image(self.starts, r, position)
    }
}

// How a fork is carried out: by an lfork's step, by a fork's step, or by a steal.
#[derive(Clone, Copy)]
pub enum ForkKind {
    Called,
    Queued,
    Stolen,
}

// Why an entry is not accepted: its command faults, or it is refused and changes nothing.
#[derive(Clone, Copy, Debug, PartialEq, Eq)]
pub enum Denial {
    Faults(Fault),
    // 14: no such core
    NoCore,
    // 15: a step of an idle core, or a take or steal by a busy one
    WrongCore,
    // 16: the ready line is empty
    NothingReady,
    // 17: the thread is not suspended
    NotSuspended,
    // 18: the thread's next command is no seed
    NoSeed,
    // 19: the machine is over
    Over,
    // 20: no thread number is free
    NoThread,
    // 21: no stacklet is free
    NoStacklet,
    // 22: the command weighs more than is left of the allowance
    TooDear,
}

impl Denial {
    // Document 01's number.
    pub fn number(self) -> u8
        ensures { result ≡ number_of_denial self }
    {
        match self {
            Denial::Faults(fault) => fault.number(),
            Denial::NoCore => 14,
            Denial::WrongCore => 15,
            Denial::NothingReady => 16,
            Denial::NotSuspended => 17,
            Denial::NoSeed => 18,
            Denial::Over => 19,
            Denial::NoThread => 20,
            Denial::NoStacklet => 21,
            Denial::TooDear => 22,
        }
    }
}

// The log byte of an entry; 0 where it is accepted.
pub fn log_byte(outcome: Result<(), Denial>) -> u8
    ensures { result ≡ log_of outcome }
{
    match outcome {
        Ok(()) => 0,
        Err(denial) => denial.number(),
    }
}
