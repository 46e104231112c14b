// A run by a schedule: the whole-run tests, and then the machine from Start through the schedule's entries, one log byte for each.
#![tactic(auto)]

pub mod tell;

ghost use Rattle.demands.specs.Input.{input_of};
ghost use Rattle.run.specs.Machine.{ran_with};
ghost use Rattle.run.specs.Promise.{RunPromise};

use crate::tell::{answer, shown};
use begin::begin;
pub use census::Census;
pub use demands::{RunAnswer, RunRefusal};
use play::play;
use rules::Job;

// The answer, with the thread records in each state, as the run left them.
#[derive(Clone, Copy)]
pub struct Shown {
    pub answer: RunAnswer,
    pub counts: Census,
    // the number of each record's status
    pub statuses: [u8; 32],
}

// The same, with the words of its stacklets.
#[derive(Clone, Copy)]
pub struct Ran {
    pub shown: Shown,
    pub words: [u32; 1024],
}

// A run by a schedule, whose stacklets' words at its end are written into an array of the caller's. It takes any input. The machine works on words
// of its own, which nothing else can name, and they are copied once.
pub fn run_into(
    image: &[u8],
    cores: u8,
    arguments: &[u32],
    parameters: &[u32],
    memory: &mut [u32],
    allowance: u32,
    schedule: &[u8],
    log: &mut [u8],
    words: &mut [u32; 1024],
) -> Shown
    ensures { RunPromise (input_of image.now cores arguments.now parameters.now memory.old allowance) schedule.now log.old (ran_with result words.new) memory.new log.new }
{
    let mut tables = [0u8; 904];
    let mut store = [0u32; 1024];
    let begun = begin(
        image,
        cores,
        arguments,
        parameters,
        memory,
        schedule,
        log,
        &mut tables,
        &mut store,
    );
    let starts = match begun {
        Ok(starts) => starts,
        Err(why) => {
            *words = store;
            return shown(RunAnswer::Refused(why), &tables);
        }
    };
    let job = Job {
        image,
        starts: &starts,
        parameters,
        allowance,
    };
    play(schedule, log, &job, &mut tables, &mut store, memory);
    *words = store;
    shown(answer(&tables), &tables)
}

// The same with the words in what is given.
pub fn run(
    image: &[u8],
    cores: u8,
    arguments: &[u32],
    parameters: &[u32],
    memory: &mut [u32],
    allowance: u32,
    schedule: &[u8],
    log: &mut [u8],
) -> Ran
    ensures { RunPromise (input_of image.now cores arguments.now parameters.now memory.old allowance) schedule.now log.old result memory.new log.new }
{
    let mut words = [0u32; 1024];
    let shown = run_into(
        image, cores, arguments, parameters, memory, allowance, schedule, log, &mut words,
    );
    Ran { shown, words }
}
