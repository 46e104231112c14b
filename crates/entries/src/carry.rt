// The other commands of a step: forks, joins that pass, suspends, yields, returns, shares and faults.
ghost use Rattle.std.specs.Prelude.{◌≡◌, ℕ, ◌+◌, ◌%◌, ◌^◌, List};
ghost use Rattle.thread.specs.declared.Status.TheVariants.{Suspended, Ready};
ghost use Rattle.thread.specs.Bytes.{bytes_by};
ghost use Rattle.rules.specs.State.{job_of};
ghost use Rattle.rules.specs.Turn.{goes_on};
ghost use Rattle.rules.specs.Denial.{log_of};
ghost use Rattle.rules.specs.Rules.{carried_of};
ghost use Rattle.tables.specs.Meaning.{meaning};
ghost use Rattle.tables.specs.Change.{Becomes};
ghost use Rattle.entries.specs.Given.{Seated, Sharing, Stands, Carrying, turn_in, passes, shares_as, leaves_as};
ghost use Rattle.dispatch.specs.Orderly.{after};

use crate::Seat;
use crate::fork::fork;
use crate::leave::leave;
use crate::returning::return_value;
use rules::{Denial, ForkKind};
use tables::lines::{Line, put_queue, queue_of};
use tables::marks::{charge, fail};
use tables::records::{put_position, put_thread, thread_at};
use thread::{Effect, Status};

// The command of a seat's thread is done, and its next one is at a position.
pub fn go_on(tables: &mut [u8], at: Seat, next: u16)
    requires { Seated tables.old at.core at.thread at.weight }
    ensures { (offset : ℕ) → Becomes tables.old tables.new (goes_on (turn_in tables.old at.core at.thread at.weight next offset)) }
{
    put_position(tables, at.thread, next);
    charge(tables, at.weight);
}

// 0A: a join passes.
fn pass_join(tables: &mut [u8], at: Seat, next: u16)
    requires { Seated tables.old at.core at.thread at.weight }
    ensures { (offset : ℕ) → Becomes tables.old tables.new (passes (turn_in tables.old at.core at.thread at.weight next offset)) }
{
    let th = thread_at(tables, at.thread);
    put_thread(tables, at.thread, th.joined_at(next));
    charge(tables, at.weight);
}

// 0E: words are shared for reading.
fn share(tables: &mut [u8], at: Seat, next: u16, s: u32)
    requires { Sharing tables.old at.core at.thread at.weight s }
    ensures { (offset : ℕ) → Becomes tables.old tables.new (shares_as (turn_in tables.old at.core at.thread at.weight next offset) s) }
{
    let th = thread_at(tables, at.thread);
    put_thread(tables, at.thread, th.shared_at(next, s));
    charge(tables, at.weight);
}

// 0B and 0C: the command is done, and the thread leaves its core.
fn go_off(tables: &mut [u8], at: Seat, next: u16, status: Status)
    requires { Stands tables.old at.core at.thread at.weight }
    ensures { (offset : ℕ) → Becomes tables.old tables.new (leaves_as (turn_in tables.old at.core at.thread at.weight next offset) status) }
{
    go_on(tables, at, next);
    leave(tables, at.core, at.thread, status);
}

// Carries out the command of a seat's thread, whose effect is not its own thread's alone. The command is at a position, and its first byte at a
// place of the image. It tells why the command is not accepted.
pub fn carry_other(
    tables: &mut [u8],
    words: &mut [u32],
    done: Effect,
    at: Seat,
    position: u16,
    place: u16,
    image: &[u8],
) -> Result<(), Denial>
    requires { Carrying tables.old at.core at.thread at.weight done }
    ensures { (starts parameters memory : List ℕ) (allowance : ℕ) → after (log_of result) tables.new words.new memory ≡ carried_of (job_of image.now starts parameters allowance) (meaning tables.old words.old memory) (turn_in tables.old at.core at.thread at.weight ((position + bytes_by done) % 2 ^ 16) place) done }
{
    // behind a fork's five bytes, and behind a command of one byte
    let past = position.wrapping_add(5);
    let next = position.wrapping_add(1);
    match done {
        Effect::Lforks(r, d, a, e) => {
            fork(tables, words, ForkKind::Called, at, past, image, r, d, a, e)
        }
        Effect::Forks(r, d, a, e) => {
            fork(tables, words, ForkKind::Queued, at, past, image, r, d, a, e)
        }
        Effect::Joins => {
            pass_join(tables, at, next);
            Ok(())
        }
        Effect::Suspends => {
            go_off(tables, at, next, Status::Suspended);
            Ok(())
        }
        Effect::Yields => {
            go_off(tables, at, next, Status::Ready);
            let line = queue_of(tables, Line::Ready).enqueue(at.thread);
            put_queue(tables, Line::Ready, line);
            Ok(())
        }
        Effect::Returns(v) => {
            return_value(tables, words, at, v, image);
            Ok(())
        }
        Effect::Shares(s) => {
            share(tables, at, position.wrapping_add(2), s);
            Ok(())
        }
        Effect::Faults(fault) => {
            fail(tables, fault.number(), at.thread, place);
            Err(Denial::Faults(fault))
        }
        // not met
        Effect::Sets(..) | Effect::Loads(..) | Effect::Stores(..) => Ok(()),
        Effect::Goes(_) | Effect::Continues => Ok(()),
    }
}
