// The built-in scheduler for C and Rust programs, in a library of its own, so that the loop of a run by schedule is compiled for itself. A
// slice is passed as a pointer and a length, an array as a pointer.
#![tactic(auto)]

ghost use Rattle.demands.specs.Input.{input_of};
ghost use Rattle.abi.specs.Words.{written};
ghost use Rattle.abi_scheduler.specs.Told.{ScheduledTold};

use abi::words::tell;

// A run by the built-in scheduler, told as a run by a schedule is. It gives the bytes of the entries at the buffer's front.
#[unsafe(no_mangle)]
pub extern "C" fn hofnulda_scheduled(
    image: &[u8],
    cores: u8,
    arguments: &[u32],
    parameters: &[u32],
    memory: &mut [u32],
    allowance: u32,
    buffer: &mut [u8],
    answer: &mut [u32; 4],
    counts: &mut [usize; 6],
    statuses: &mut [u8; 32],
    words: &mut [u32; 1024],
) -> usize
    ensures { ScheduledTold (input_of image.now cores arguments.now parameters.now memory.old allowance) buffer.old memory.new buffer.new (written answer.new counts.new statuses.new words.new) result }
{
    let scheduled = scheduler::run_into(
        image, cores, arguments, parameters, memory, allowance, buffer, words,
    );
    tell(scheduled.shown, answer, counts, statuses);
    scheduled.used
}
