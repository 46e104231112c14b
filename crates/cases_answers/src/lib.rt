// How runs ended, as text: what the cases of runs print alike.
#![tactic(auto)]

use demands::RunAnswer;
use serial::answer::SerialAnswer;
use std::fmt;
use std::fmt::{Display, Formatter, Write};

// How a run by entries ended.
#[derive(Clone, Copy)]
pub struct Ended(pub RunAnswer);

impl Display for Ended {
    fn fmt<W: Write>(&self, f: &mut Formatter<W>) -> fmt::Result {
        match self.0 {
            RunAnswer::Refused(why) => write!(f, "refused {}", why.number()),
            RunAnswer::Finished { result, units } => write!(f, "finished {result} {units}"),
            RunAnswer::Faulted {
                number,
                thread,
                offset,
            } => write!(f, "faulted {number} {thread} {offset}"),
            RunAnswer::Open { units } => write!(f, "open {units}"),
        }
    }
}

// How a serial run ended.
#[derive(Clone, Copy)]
pub struct SerialEnded(pub SerialAnswer);

impl Display for SerialEnded {
    fn fmt<W: Write>(&self, f: &mut Formatter<W>) -> fmt::Result {
        match self.0 {
            Ok(a) => write!(f, "finished {} {}", a.result, a.units),
            Err(a) => write!(f, "stopped {} {}", a.by.number(), a.units),
        }
    }
}
