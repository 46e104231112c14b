// What the print program prints of its input: a job is read from bytes and run, and its log and last line are written as text.
#![tactic(auto)]

mod answer;

ghost use Rattle.std.specs.Prelude.{◌≡◌, length};
ghost use Rattle.schedule.specs.Meaning.{schedule_of};
ghost use Rattle.demands.specs.Input.{entry_count};
ghost use Rattle.text.specs.Buffer.{Fills};
ghost use Rattle.transcript.specs.Job.{starting_with};
ghost use Rattle.transcript.specs.Transcript.{run_text};
ghost use Rattle.transcript.specs.Writing.{Prints};
ghost use Rattle.transcript.specs.Parts.{lines_of};

use crate::answer::put_answer;
use reading::{allowance, argument_count, core_count, image_at, read_arguments, schedule_at};
use run::{RunAnswer, RunRefusal};
use text::put_log;

// How many entries a schedule has; none where it is malformed.
fn entry_count(schedule: &[u8]) -> usize
    ensures { result ≡ entry_count (schedule_of schedule.now) }
{
    schedule::count(schedule).unwrap_or(0)
}

// How many log bytes a run has written: one for each entry, and none where it is refused.
#[tactic(auto, unfolding(crate::specs::Parts::lines_of))]
fn lines(answer: RunAnswer, schedule: &[u8]) -> usize
    ensures { result ≡ lines_of answer (schedule_of schedule.now) }
{
    match answer {
        RunAnswer::Refused(_) => 0,
        RunAnswer::Finished { .. } | RunAnswer::Faulted { .. } | RunAnswer::Open { .. } => {
            entry_count(schedule)
        }
    }
}

// Runs a job on zero words, with a log that has room for every schedule, and writes its text at the front of the output.
fn transcribe(
    image: &[u8],
    cores: u8,
    arguments: &[u32],
    allowance: u32,
    schedule: &[u8],
    log: &mut [u8],
    output: &mut [u8],
) -> usize
    requires { length log.old ≡ 16384 }
    ensures { Fills (run_text (starting_with image.now cores arguments.now allowance) schedule.now) output.old 163871 result output.new }
{
    let parameters = [0u32; 32];
    let mut memory = [0u32; 992];
    let ran = run::run(
        image,
        cores,
        arguments,
        &parameters,
        &mut memory,
        allowance,
        schedule,
        log,
    );
    let answer = ran.shown.answer;
    let count = lines(answer, schedule);
    let at = put_log(output, &log[0..count]);
    put_answer(output, at as u32, answer)
}

// Writes an input's text over the front of the output, as far as there is room, and gives the text's length. It takes any input.
pub fn print(input: &[u8], output: &mut [u8]) -> usize
    ensures { Prints input.now output.old output.new result }
{
    let start = image_at(input);
    let end = schedule_at(input);
    if input.len() < end {
        return put_answer(output, 0, RunAnswer::Refused(RunRefusal::BadLengths));
    }
    let mut arguments = [0u32; 255];
    read_arguments(input, &mut arguments);
    let count = argument_count(input);
    let mut log = [0u8; 16384];
    transcribe(
        &input[start..end],
        core_count(input),
        &arguments[0..count],
        allowance(input),
        &input[end..],
        &mut log,
        output,
    )
}
