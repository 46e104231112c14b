// The words of the stacklets that a run leaves, after each of its entries.
use crate::job::{Job, after_entry, entries};
use cases_answers::Ended;
use run::{Ran, RunAnswer};
use std::fmt::{Display, Formatter, Write};
use std::{fmt, io};

// The words that are not zero, each with its number among all words.
#[derive(Clone, Copy)]
struct Marked<'a>(&'a [u32]);

impl Display for Marked<'_> {
    fn fmt<W: Write>(&self, f: &mut Formatter<W>) -> fmt::Result {
        if self.0.iter().all(|word| *word == 0) {
            return write!(f, " none");
        }
        for (i, word) in self.0.iter().enumerate() {
            if *word != 0 {
                write!(f, " {i}={word}")?;
            }
        }
        Ok(())
    }
}

// A run whose log and memory are not looked at.
fn run(job: &Job, schedule: &[u8]) -> Ran {
    job.run(schedule, &mut [0; 992], &mut [0; 128])
}

// What each front of the schedule leaves, the empty one first. A refused run has no words: its answer alone is printed.
pub fn print(rt: &impl Print, job: &Job) -> io::Result<()> {
    let answer = run(job, &job.schedule).shown.answer;
    if let RunAnswer::Refused(_) = answer {
        return println!(rt; "{}", Ended(answer));
    }
    let mut at = 0;
    for gone in 0..=entries(&job.schedule) {
        let Some(front) = job.schedule.get(..at) else {
            break;
        };
        println!(rt; "after {gone}:{}", Marked(&run(job, front).words))?;
        at = after_entry(&job.schedule, at);
    }
    Ok(())
}
