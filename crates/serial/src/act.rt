// The command that a routine meets: where its code starts, its weight, and what its effect does to slots and memory.
ghost use Rattle.std.specs.Prelude.{◌≡◌, ◌+◌, ◌<◌, length, get_or};
ghost use Rattle.command.specs.Weight.{weight_of};
ghost use Rattle.thread.specs.Bytes.{bytes_by};
ghost use Rattle.thread.specs.Job.{word_in};
ghost use Rattle.serial.specs.Steps.{slots_after, memory_after, asked_of, InReach};

use crate::Ask;
use crate::answer::Stop;
use crate::frame::put;
use image::routines::place_in_image;
use thread::Effect;

// Where a routine's code starts.
pub fn code_start(starts: &[u16; 32], routine: u8) -> usize
    ensures { (result ≡ get_or starts.now routine 0) × (result < 131072) }
{
    place_in_image(starts, routine, 0)
}

// The weight, in a table, of the command with this first byte.
pub fn cost_of(weights: &[u8; 15], byte: u8) -> u32
    requires { byte < 15 }
    ensures { result ≡ weight_of weights.now byte }
{
    u32::from(weights[byte as usize])
}

// The word at an address.
fn word_at(parameters: &[u32], memory: &[u32], address: u32) -> u32
    requires { (length parameters.now ≡ 32) × (length memory.now ≡ 992) × (address < 1024) }
    ensures { result ≡ word_in parameters.now memory.now address }
{
    let a = address as usize;
    if a < 32 {
        return parameters[a];
    }
    memory[a - 32]
}

// Writes the slot or the word that an effect changes, and says what is left to the run. An effect by which the routine goes on tells the
// number of the command's bytes, so that the next position does not wait for a table.
#[tactic(auto, unfolding(crate::specs::Steps::slots_after, crate::specs::Steps::memory_after, crate::specs::Steps::asked_of))]
pub fn carry_out(
    effect: Effect,
    slots: &mut [u32; 16],
    parameters: &[u32],
    memory: &mut [u32],
    position: u16,
) -> Result<Ask, Stop>
    requires { (length parameters.now ≡ 32) × (length memory.old ≡ 992) × InReach effect × (position + bytes_by effect < 65536) }
    ensures { (slots.new ≡ slots_after parameters.now memory.old slots.old effect) × (memory.new ≡ memory_after memory.old effect) × (result ≡ asked_of effect position) }
{
    let ask = match effect {
        Effect::Sets(d, value) => {
            put(slots, d, value);
            Ask::GoOn(position + 4)
        }
        Effect::Loads(d, address) => {
            put(slots, d, word_at(parameters, memory, address));
            Ask::GoOn(position + 3)
        }
        Effect::Stores(address, value) => {
            memory[(address as usize) - 32] = value;
            Ask::GoOn(position + 3)
        }
        Effect::Goes(target) => Ask::GoOn(target),
        Effect::Continues => Ask::GoOn(position + 4),
        Effect::Lforks(r, d, a, e) => Ask::Call(e, r, d, a),
        Effect::Forks(r, d, a, e) => Ask::Call(e, r, d, a),
        Effect::Joins => Ask::Join,
        Effect::Suspends => Ask::GoOn(position + 1),
        Effect::Yields => Ask::GoOn(position + 1),
        Effect::Faults(fault) => return Err(Stop::Fault(fault)),
        Effect::Returns(value) => Ask::Return(value),
        Effect::Shares(s) => Ask::Share(s),
    };
    Ok(ask)
}
