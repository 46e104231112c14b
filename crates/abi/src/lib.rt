// Image check and runs by schedule as C and Rust programs call them: numbers and lent slices in, words of an array out. Crate `abi_c` exports them.
// Numbers stand for answers and arrays are written, and each thing is a parameter of its own, as the C interface has them.
#![tactic(auto)]

pub mod words;

ghost use Rattle.std.specs.Prelude.{◌≡◌};
ghost use Rattle.image.specs.Image.{image_verdict, number_in};
ghost use Rattle.demands.specs.Input.{input_of};
ghost use Rattle.abi.specs.Words.{written};
ghost use Rattle.abi.specs.Told.{RunTold};

use crate::words::tell;
use image::number::image_number;

// Document 01's number of an image; 0 where it is accepted.
pub fn hofnulda_check(image: &[u8]) -> u8
    ensures { result ≡ number_in (image_verdict image.now) }
{
    image_number(&image::check(image))
}

// A run by a schedule. The answer's words: 0 and the number of a refused run; 1, result and units; 2, number, thread and offset;
// or 3 and the units. The thread records are counted by their states: free, running, ready, suspended, waiting, lent. The status of each is
// told by its number, its place among these. Last come the 1,024 words of the stacklets, as the run left them. Of a refused run all but the
// answer is Start's.
pub fn hofnulda_run(
    image: &[u8],
    cores: u8,
    arguments: &[u32],
    parameters: &[u32],
    memory: &mut [u32],
    allowance: u32,
    schedule: &[u8],
    log: &mut [u8],
    answer: &mut [u32; 4],
    counts: &mut [usize; 6],
    statuses: &mut [u8; 32],
    words: &mut [u32; 1024],
)
    ensures { RunTold (input_of image.now cores arguments.now parameters.now memory.old allowance) schedule.now log.old memory.new log.new (written answer.new counts.new statuses.new words.new) }
{
    let shown = run::run_into(
        image, cores, arguments, parameters, memory, allowance, schedule, log, words,
    );
    tell(shown, answer, counts, statuses)
}
