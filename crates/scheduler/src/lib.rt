// The built-in scheduler, document 01's "house run": it makes its own schedule, round by round, and writes the entries it used.
#![tactic(auto)]

ghost use Rattle.std.specs.Prelude.{[], ℕ};
ghost use Rattle.start.specs.Start.{Starts};
ghost use Rattle.begin.specs.Begins.{Begins};
ghost use Rattle.demands.specs.Input.{input_of};
ghost use Rattle.scheduler.specs.Promise.{SchedulerPromise, scheduled_with};

use begin::begin;
use rules::Job;
use run::tell::{answer, shown};
use run::{Ran, RunAnswer, RunRefusal, Shown};
use turns::play_rounds;

// What is shown of a run by a schedule.
#[derive(Clone, Copy)]
pub struct ScheduleShown {
    pub shown: Shown,
    // the bytes of the entries at the buffer's front
    pub used: usize,
}

// The same, with the words of its stacklets.
#[derive(Clone, Copy)]
pub struct Scheduled {
    pub ran: Ran,
    // the bytes of the entries at the buffer's front
    pub used: usize,
}

// The tests and Start are those of a run by no entries, which needs no log.
fn begin_alone(
    image: &[u8],
    cores: u8,
    arguments: &[u32],
    parameters: &[u32],
    memory: &[u32],
    tables: &mut [u8],
    words: &mut [u32],
) -> Result<[u16; 32], RunRefusal>
    ensures tests { (allowance : ℕ) → Begins (input_of image.now cores arguments.now parameters.now memory.now allowance) [] [] result }
    ensures start { Starts image.now arguments.now cores tables.old tables.new words.old words.new }
{
    let none = [0u8; 0];
    begin(
        image, cores, arguments, parameters, memory, &none, &none, tables, words,
    )
}

// A run by the scheduler's own entries, whose stacklets' words at its end are written into an array of the caller's. It takes any input. Two of
// the wrong schedulers that its contract rules out: one that tries with 2 bytes left, and one that goes on to a second seed where the first is
// refused.
pub fn run_into(
    image: &[u8],
    cores: u8,
    arguments: &[u32],
    parameters: &[u32],
    memory: &mut [u32],
    allowance: u32,
    buffer: &mut [u8],
    words: &mut [u32; 1024],
) -> ScheduleShown
    ensures { SchedulerPromise (input_of image.now cores arguments.now parameters.now memory.old allowance) buffer.old (scheduled_with result words.new) memory.new buffer.new }
{
    let mut tables = [0u8; 904];
    let mut store = [0u32; 1024];
    let begun = begin_alone(
        image,
        cores,
        arguments,
        parameters,
        memory,
        &mut tables,
        &mut store,
    );
    let starts = match begun {
        Ok(starts) => starts,
        Err(why) => {
            *words = store;
            return ScheduleShown {
                shown: shown(RunAnswer::Refused(why), &tables),
                used: 0,
            };
        }
    };
    let job = Job {
        image,
        starts: &starts,
        parameters,
        allowance,
    };
    let used = play_rounds(&job, &mut tables, &mut store, memory, buffer);
    *words = store;
    ScheduleShown {
        shown: shown(answer(&tables), &tables),
        used,
    }
}

// The same with the words in what is given.
pub fn run(
    image: &[u8],
    cores: u8,
    arguments: &[u32],
    parameters: &[u32],
    memory: &mut [u32],
    allowance: u32,
    buffer: &mut [u8],
) -> Scheduled
    ensures { SchedulerPromise (input_of image.now cores arguments.now parameters.now memory.old allowance) buffer.old result memory.new buffer.new }
{
    let mut words = [0u32; 1024];
    let scheduled = run_into(
        image, cores, arguments, parameters, memory, allowance, buffer, &mut words,
    );
    Scheduled {
        ran: Ran {
            shown: scheduled.shown,
            words,
        },
        used: scheduled.used,
    }
}
