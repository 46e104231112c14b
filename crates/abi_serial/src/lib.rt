// The serial run for C and Rust programs, in a library of its own: what a command does is one function, which the compiler puts in line in
// the serial run's loop only where no other loop calls it. A slice is passed as a pointer and a length, an array as a pointer.
#![tactic(auto)]

ghost use Rattle.std.specs.Prelude.{◌≡◌, List, ℕ};
ghost use Rattle.image.specs.Layout.{program_of, starts_in};
ghost use Rattle.thread.specs.Job.{job_of};
ghost use Rattle.serial.specs.Serial.{ended_by, serial_of};
ghost use Rattle.abi_serial.specs.Words.{serial_words, serial_memory};

use serial::answer::SerialAnswer;

fn serial_words(answer: SerialAnswer) -> [u32; 3]
    ensures { (memory : List ℕ) → result ≡ serial_words (ended_by answer memory) }
{
    match answer {
        Ok(finished) => [1, finished.result, finished.units],
        Err(stopped) => [0, u32::from(stopped.by.number()), stopped.units],
    }
}

// The serial run. The answer's words: 1, the result and the units; or 0, the number that it ended by and the units.
#[unsafe(no_mangle)]
pub extern "C" fn hofnulda_serial(
    image: &[u8],
    arguments: &[u32],
    parameters: &[u32],
    memory: &mut [u32],
    allowance: u32,
    answer: &mut [u32; 3],
)
    ensures answer_after { answer.new ≡ serial_words (serial_of (job_of image.now (starts_in (program_of image.now)) parameters.now allowance) arguments.now memory.old) }
    ensures memory_after { memory.new ≡ serial_memory (serial_of (job_of image.now (starts_in (program_of image.now)) parameters.now allowance) arguments.now memory.old) }
{
    let ended = serial::serial(image, arguments, parameters, memory, allowance);
    *answer = serial_words(ended);
}
