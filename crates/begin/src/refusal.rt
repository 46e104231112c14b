// The whole-run tests, in document 01's order: 23, image, 24, 13, 25.
ghost use Rattle.std.specs.Prelude.{◌≡◌, ℕ};
ghost use Rattle.demands.specs.Input.{input_of};
ghost use Rattle.begin.specs.Begins.{begun_of};

use demands::RunRefusal;
use image::routines::arguments_of;

// The image is checked once, for its test and for the starts.
pub fn tested(
    image: &[u8],
    cores: u8,
    arguments: &[u32],
    parameters: &[u32],
    memory: &[u32],
    schedule: &[u8],
    log: &[u8],
) -> Result<[u16; 32], RunRefusal>
    ensures { (allowance : ℕ) → result ≡ begun_of (input_of image.now cores arguments.now parameters.now memory.now allowance) schedule.now log.now }
{
    if cores == 0 || 4 < cores {
        return Err(RunRefusal::BadCores);
    }
    let program = image::check(image)?;
    if arguments.len() != usize::from(arguments_of(image, 0)) {
        return Err(RunRefusal::BadArguments);
    }
    let entries = schedule::count(schedule)?;
    if parameters.len() != 32 || memory.len() != 992 || log.len() < entries {
        return Err(RunRefusal::BadLengths);
    }
    Ok(program.starts())
}
