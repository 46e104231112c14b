// The last line that is printed of a run.
ghost use Rattle.std.specs.Prelude.{◌≡◌, ◌≤◌, ◌+◌};
ghost use Rattle.text.specs.Buffer.{Put};
ghost use Rattle.transcript.specs.LastLine.{last_line};

use run::RunAnswer;
use text::put_line;

pub fn put_answer(output: &mut [u8], at: u32, answer: RunAnswer) -> usize
    ensures { Put (last_line answer) output.old at result output.new × (result ≤ at + 31) }
{
    match answer {
        RunAnswer::Refused(why) => put_line(output, at, b"refused", &[u32::from(why.number())]),
        RunAnswer::Finished { result, units } => {
            put_line(output, at, b"finished", &[result, units])
        }
        RunAnswer::Faulted {
            number,
            thread,
            offset,
        } => put_line(
            output,
            at,
            b"faulted",
            &[u32::from(number), u32::from(thread), u32::from(offset)],
        ),
        RunAnswer::Open { units } => put_line(output, at, b"open", &[units]),
    }
}
