// Answers and counts as words of an array.

ghost use Rattle.std.specs.Prelude.{◌≡◌};
ghost use Rattle.abi.specs.Words.{answer_words, count_words, IsTold};

use run::{Census, RunAnswer, Shown};

pub fn answer_words(answer: RunAnswer) -> [u32; 4]
    ensures { result ≡ answer_words answer }
{
    match answer {
        RunAnswer::Refused(why) => [0, u32::from(why.number()), 0, 0],
        RunAnswer::Finished { result, units } => [1, result, units, 0],
        RunAnswer::Faulted {
            number,
            thread,
            offset,
        } => [2, u32::from(number), u32::from(thread), u32::from(offset)],
        RunAnswer::Open { units } => [3, units, 0, 0],
    }
}

// The records in each state, in document 01's order.
pub fn count_words(counts: Census) -> [usize; 6]
    ensures { result ≡ count_words counts }
{
    [
        counts.free,
        counts.running,
        counts.ready,
        counts.suspended,
        counts.waiting,
        counts.lent,
    ]
}

// What is shown of a run, over arrays of the caller's.
pub fn tell(shown: Shown, answer: &mut [u32; 4], counts: &mut [usize; 6], statuses: &mut [u8; 32])
    ensures { IsTold shown answer.new counts.new statuses.new }
{
    *answer = answer_words(shown.answer);
    *counts = count_words(shown.counts);
    let states = shown.statuses;
    *statuses = states;
}
