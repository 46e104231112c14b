// The machine's entries, carried out in place in lent tables, words and memory. Each is its rule (crate `rules`).
#![tactic(auto)]

mod carry;
mod fork;
mod leave;
mod own;
mod returning;
pub mod steal;
pub mod step;

ghost use Rattle.std.specs.Prelude.{◌≡◌};
ghost use Rattle.rules.specs.Lent.{job_in};
ghost use Rattle.rules.specs.Denial.{log_of};
ghost use Rattle.tables.specs.Meaning.{meaning};
ghost use Rattle.entries.specs.Given.{Sounding};
ghost use Rattle.entries.specs.Repeat.{Repeats};

use crate::steal::steal;
use crate::step::steps;
use dispatch::{enable, take};
use rules::{Denial, Job, log_byte};
use schedule::Entry;

// A core, the thread that it met and the weight of that thread's command.
#[derive(Clone, Copy)]
struct Seat {
    core: u8,
    thread: u8,
    weight: u8,
}

// An entry was carried out once and then so often again, and the last one's log byte.
#[derive(Clone, Copy)]
pub struct Carried {
    pub again: usize,
    pub log: u8,
}

fn told(again: usize, met: Result<(), Denial>) -> Carried
    ensures { (result.again ≡ again) × (result.log ≡ log_of met) }
{
    Carried {
        again,
        log: log_byte(met),
    }
}

// An entry that was carried out once.
fn once(met: Result<(), Denial>) -> Carried
    ensures { (result.again ≡ 0) × (result.log ≡ log_of met) }
{
    told(0, met)
}

// Any entry of a schedule is carried out, and a step up to so many times more: each but the last was accepted, whose log byte is given. Two of
// the wrong machines that this rules out: one that logs a refusal for all entries, and one that leaves memory alone.
pub fn entry(
    e: Entry,
    more: usize,
    job: &Job<'_>,
    tables: &mut [u8],
    words: &mut [u32],
    memory: &mut [u32],
) -> Carried
    requires { Sounding job.now.image.now job.now.starts.now job.now.parameters.now job.now.allowance tables.old words.old memory.old }
    ensures { Repeats (job_in job.now) (meaning tables.old words.old memory.old) e more result (meaning tables.new words.new memory.new) }
{
    match e {
        Entry::Step(c) => steps(c, more, job, tables, words, memory),
        Entry::Take(c) => once(take(tables, c)),
        Entry::Steal(c, t) => once(steal(c, t, job, tables, words)),
        Entry::Enable(t) => once(enable(tables, t)),
    }
}
