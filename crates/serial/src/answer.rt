// What a serial run answers.
ghost use Rattle.std.specs.Prelude.{◌≡◌};
ghost use Rattle.serial.specs.Answer.{number_of_stop, stopped_by_image};

use image::Refusal;
use thread::Fault;

// Why a serial run ended before routine 0 returned.
#[derive(Clone, Copy, Debug, PartialEq, Eq)]
pub enum Stop {
    // 1 to 8: a bad image
    Image(Refusal),
    // 24: the count of arguments
    ArgumentCount,
    // 25: another number of parameter or memory words
    BufferLength,
    // 22: the next command weighs more than is left of the allowance
    Allowance,
    // 26: a fork from 32 deep
    Depth,
    // 9 to 12 and 31: a command faults
    Fault(Fault),
}

impl Stop {
    // Document 01's number.
    pub fn number(self) -> u8
        ensures { result ≡ number_of_stop self }
    {
        match self {
            Stop::Image(refusal) => refusal.number(),
            Stop::ArgumentCount => 24,
            Stop::BufferLength => 25,
            Stop::Allowance => 22,
            Stop::Depth => 26,
            Stop::Fault(fault) => fault.number(),
        }
    }
}

// A run that finished: routine 0's value, and the units used.
#[derive(Clone, Copy, Debug, PartialEq, Eq)]
pub struct Finished {
    pub result: u32,
    pub units: u32,
}

// A run that ended before: why, and the units so far.
#[derive(Clone, Copy, Debug, PartialEq, Eq)]
pub struct Stopped {
    pub by: Stop,
    pub units: u32,
}

// An image that is refused ends it before its first command.
impl From<Refusal> for Stopped {
    ghost from_gives = { λ refusal stopped. stopped ≡ stopped_by_image refusal };

    fn from(refusal: Refusal) -> Self {
        Stopped {
            by: Stop::Image(refusal),
            units: 0,
        }
    }
}

// How a run ended.
pub type SerialAnswer = Result<Finished, Stopped>;
