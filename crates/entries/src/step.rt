// Steps of one core: the next commands of the thread on it.
ghost use Rattle.std.specs.Prelude.{◌≡◌, ℕ, ◌+◌, ◌%◌, ◌^◌, List};
ghost use Rattle.schedule.specs.declared.Entry.TheVariants.{Step};
ghost use Rattle.thread.specs.Bytes.{bytes_by};
ghost use Rattle.rules.specs.Lent.{job_in};
ghost use Rattle.rules.specs.Denial.{log_of};
ghost use Rattle.rules.specs.State.{job_of};
ghost use Rattle.tables.specs.Meaning.{meaning};
ghost use Rattle.tables.specs.Change.{Becomes};
ghost use Rattle.entries.specs.Given.{Sounding, Leaving, Carrying, turn_in};
ghost use Rattle.dispatch.specs.Orderly.{after};
ghost use Rattle.entries.specs.Repeat.{Repeats};
ghost use Rattle.entries.specs.Burst.{Busy, stands_at, short_of, rest_given};

use crate::carry::carry_other;
use crate::leave::leave;
use crate::own::carry_own;
use crate::{Carried, Seat, once, told};
use command::{command_of, five_at, weights};
use effects::View;
use rules::{Denial, Job};
use statuses::{falls_short, must_wait};
use tables::marks::{core_at, count, is_over, put_units, units};
use tables::records::{put_position, thread_at};
use thread::{Effect, Status};

// Position and units, which were held apart, go back to the tables.
fn put_back(tables: &mut [u8], t: u8, position: u16, used: u32)
    ensures { Becomes tables.old tables.new (stands_at (t % 32) position used) }
{
    put_position(tables, t, position);
    put_units(tables, used);
}

// The command of thread t is too dear, unless it waits.
fn fall_short(tables: &mut [u8], c: u8, t: u8, waits: bool) -> Result<(), Denial>
    requires { Leaving tables.old c t }
    ensures { (words memory : List ℕ) → after (log_of result) tables.new words memory ≡ short_of c t waits (meaning tables.old words memory) }
{
    if waits {
        leave(tables, c, t, Status::Waiting);
        return Ok(());
    }
    Err(Denial::TooDear)
}

// A command of a seat's thread that is not its own thread's alone, by its effect, unless it waits.
fn carry_rest(
    tables: &mut [u8],
    words: &mut [u32],
    done: Effect,
    at: Seat,
    waits: bool,
    position: u16,
    place: u16,
    image: &[u8],
) -> Result<(), Denial>
    requires { Leaving tables.old at.core at.thread × Carrying tables.old at.core at.thread at.weight done }
    ensures { (starts parameters memory : List ℕ) (allowance : ℕ) → after (log_of result) tables.new words.new memory ≡ rest_given (job_of image.now starts parameters allowance) (meaning tables.old words.old memory) (turn_in tables.old at.core at.thread at.weight ((position + bytes_by done) % 2 ^ 16) place) done waits }
{
    if waits {
        leave(tables, at.core, at.thread, Status::Waiting);
        return Ok(());
    }
    carry_other(tables, words, done, at, position, place, image)
}

// Steps of core c, on which thread t runs: one, and then as many as may follow, up to the first that is not its own thread's alone. Position
// and units are held apart from the tables meanwhile.
fn burst(
    c: u8,
    t: u8,
    more: usize,
    job: &Job<'_>,
    tables: &mut [u8],
    words: &mut [u32],
    memory: &mut [u32],
) -> Carried
    requires { Busy job.now.image.now job.now.starts.now job.now.parameters.now job.now.allowance tables.old words.old memory.old c t }
    ensures { Repeats (job_in job.now) (meaning tables.old words.old memory.old) (Step c) more result (meaning tables.new words.new memory.new) }
{
    let h = thread_at(tables, t);
    let start = job.place_of(h.origin.routine, 0);
    // held by the loop: a constant table is laid out anew where it is named
    let weights = weights();
    let mut position = h.position;
    let mut left = job.allowance - units(tables);
    let mut rest = more;
    loop {
        let place = start + (position as usize);
        let five = five_at(job.image, place);
        let cost = weights[five[0] as usize];
        let waits = must_wait(five[0], h.family.children);
        if falls_short(left, cost) {
            put_back(tables, t, position, job.allowance - left);
            return told(more - rest, fall_short(tables, c, t, waits));
        }
        let done = View::of(words, h).effect(command_of(five), job.image);
        match carry_own(done, position, h.origin.base, job.parameters, words, memory) {
            Some(next) => {
                position = next;
                left -= u32::from(cost);
                if rest == 0 {
                    put_back(tables, t, position, job.allowance - left);
                    return told(more, Ok(()));
                }
                rest -= 1;
            }
            None => {
                put_back(tables, t, position, job.allowance - left);
                let at = Seat {
                    core: c,
                    thread: t,
                    weight: cost,
                };
                let first = place as u16;
                let met = carry_rest(tables, words, done, at, waits, position, first, job.image);
                return told(more - rest, met);
            }
        }
    }
}

// The thread on core c meets its next command, and where the entry may be repeated it meets the commands that follow; the last one's log byte
// is given.
pub fn steps(
    c: u8,
    more: usize,
    job: &Job<'_>,
    tables: &mut [u8],
    words: &mut [u32],
    memory: &mut [u32],
) -> Carried
    requires { Sounding job.now.image.now job.now.starts.now job.now.parameters.now job.now.allowance tables.old words.old memory.old }
    ensures { Repeats (job_in job.now) (meaning tables.old words.old memory.old) (Step c) more result (meaning tables.new words.new memory.new) }
{
    if is_over(tables) {
        return once(Err(Denial::Over));
    }
    if count(tables) <= c {
        return once(Err(Denial::NoCore));
    }
    let t = core_at(tables, c);
    if 32 <= t {
        return once(Err(Denial::WrongCore));
    }
    burst(c, t, more, job, tables, words, memory)
}
