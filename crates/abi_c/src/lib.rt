// The exports of crate `abi` for C and Rust programs. A slice is passed as a pointer and a length, an array as a pointer.
#![tactic(auto)]

ghost use Rattle.std.specs.Prelude.{◌≡◌};
ghost use Rattle.image.specs.Image.{image_verdict, number_in};
ghost use Rattle.demands.specs.Input.{input_of};
ghost use Rattle.abi.specs.Words.{written};
ghost use Rattle.abi.specs.Told.{RunTold};

// Document 01's number of an image; 0 where it is accepted.
#[unsafe(no_mangle)]
pub extern "C" fn hofnulda_check(image: &[u8]) -> u8
    ensures { result ≡ number_in (image_verdict image.now) }
{
    abi::hofnulda_check(image)
}

// A run by a schedule, told as `abi::hofnulda_run` tells it.
#[unsafe(no_mangle)]
pub extern "C" fn hofnulda_run(
    image: &[u8],
    cores: u8,
    arguments: &[u32],
    parameters: &[u32],
    memory: &mut [u32],
    allowance: u32,
    schedule: &[u8],
    log: &mut [u8],
    answer: &mut [u32; 4],
    counts: &mut [usize; 6],
    statuses: &mut [u8; 32],
    words: &mut [u32; 1024],
)
    ensures { RunTold (input_of image.now cores arguments.now parameters.now memory.old allowance) schedule.now log.old memory.new log.new (written answer.new counts.new statuses.new words.new) }
{
    abi::hofnulda_run(
        image, cores, arguments, parameters, memory, allowance, schedule, log, answer, counts,
        statuses, words,
    )
}
