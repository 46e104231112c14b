// What stands before a run's first entry: the whole-run tests, the machine at Start, and where the routines' codes start.
#![tactic(auto)]

mod refusal;

ghost use Rattle.std.specs.Prelude.{ℕ};
ghost use Rattle.start.specs.Start.{Starts};
ghost use Rattle.demands.specs.Input.{input_of};
ghost use Rattle.begin.specs.Begins.{Begins};

use crate::refusal::tested;
use demands::RunRefusal;
use start::start;

// Tests a run's input, brings the machine's tables and the stacklets' words to Start, and gives where each routine's code starts. It takes any
// input. A run by a schedule and the scheduler's run both begin here, so that neither has the other's loop in it.
pub fn begin(
    image: &[u8],
    cores: u8,
    arguments: &[u32],
    parameters: &[u32],
    memory: &[u32],
    schedule: &[u8],
    log: &[u8],
    tables: &mut [u8],
    words: &mut [u32],
) -> Result<[u16; 32], RunRefusal>
    ensures tests { (allowance : ℕ) → Begins (input_of image.now cores arguments.now parameters.now memory.now allowance) schedule.now log.now result }
    ensures start { Starts image.now arguments.now cores tables.old tables.new words.old words.new }
{
    start(image, cores, arguments, tables, words);
    tested(image, cores, arguments, parameters, memory, schedule, log)
}
