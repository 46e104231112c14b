// Commands 01 to 07 carried out: the thread's slots, the memory and its position change, and nothing else.
ghost use Rattle.std.specs.Prelude.{◌≡◌, slice_index, slice_set};
ghost use Rattle.thread.specs.Job.{word_in};
ghost use Rattle.entries.specs.Own.{Stored, OwnAs};

use stacklets::set_slot;
use thread::Effect;

// The word at i; 0 where there is none.
fn word_in(words: &[u32], i: usize) -> u32
    ensures { result ≡ slice_index words.now i }
{
    words.get(i).copied().unwrap_or(0)
}

// The word at i becomes v, where there is one.
fn put_in(words: &mut [u32], i: usize, v: u32)
    ensures { words.new ≡ slice_set words.old i v }
{
    if i < words.len() {
        words[i] = v;
    }
}

// The word at an address.
fn load(parameters: &[u32], memory: &[u32], a: u32) -> u32
    ensures { result ≡ word_in parameters.now memory.now a }
{
    if a < 32 {
        return word_in(parameters, a as usize);
    }
    word_in(memory, (a - 32) as usize)
}

// What a command does to its own thread is carried out, if it is of this kind: the next position is given. Nothing changes by a fault or a command
// of another kind. The command's width is a constant of the effect, so that the next
// position waits for no table.
pub fn carry_own(
    done: Effect,
    position: u16,
    base: u16,
    parameters: &[u32],
    words: &mut [u32],
    memory: &mut [u32],
) -> Option<u16>
    requires { Stored done }
    ensures { OwnAs done position base parameters.now words.old memory.old words.new memory.new result }
{
    match done {
        Effect::Sets(d, v) => {
            set_slot(words, base, d, v);
            Some(position.wrapping_add(4))
        }
        Effect::Loads(d, a) => {
            let v = load(parameters, memory, a);
            set_slot(words, base, d, v);
            Some(position.wrapping_add(3))
        }
        Effect::Stores(a, v) => {
            put_in(memory, (a - 32) as usize, v);
            Some(position.wrapping_add(3))
        }
        Effect::Goes(p) => Some(p),
        Effect::Continues => Some(position.wrapping_add(4)),
        Effect::Faults(_) => None,
        Effect::Lforks(r, d, a, e) => None,
        Effect::Forks(r, d, a, e) => None,
        Effect::Joins => None,
        Effect::Suspends => None,
        Effect::Yields => None,
        Effect::Returns(v) => None,
        Effect::Shares(s) => None,
    }
}
