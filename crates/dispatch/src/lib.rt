// The ready queue's entries, carried out in place in lent tables: an idle core takes its head, and a suspended thread joins it. Each is its rule
// (crate `rules`).
#![tactic(auto)]

ghost use Rattle.std.specs.Prelude.{List, ◌≡◌, ℕ, length};
ghost use Rattle.rules.specs.Denial.{log_of};
ghost use Rattle.rules.specs.Rules.{take_of, enable_of};
ghost use Rattle.tables.specs.Meaning.{size, meaning};
ghost use Rattle.dispatch.specs.Orderly.{after, Orderly};

use rules::Denial;
use tables::lines::{Line, put_queue, queue_of};
use tables::marks::{core_at, count, is_over, put_core};
use tables::records::{put_thread, thread_at};
use thread::Status;

// Core c takes the ready queue's head, or it tells why not.
pub fn take(tables: &mut [u8], c: u8) -> Result<(), Denial>
    requires { Orderly tables.old }
    ensures { (words memory : List ℕ) → after (log_of result) tables.new words memory ≡ take_of (meaning tables.old words memory) c }
{
    if is_over(tables) {
        return Err(Denial::Over);
    }
    if count(tables) <= c {
        return Err(Denial::NoCore);
    }
    if core_at(tables, c) < 32 {
        return Err(Denial::WrongCore);
    }
    let (first, rest) = queue_of(tables, Line::Ready).dequeue();
    let Some(t) = first else {
        return Err(Denial::NothingReady);
    };
    put_queue(tables, Line::Ready, rest);
    let th = thread_at(tables, t);
    put_thread(tables, t, th.with_status(Status::Running));
    put_core(tables, c, t);
    Ok(())
}

// Thread t is enabled, or it tells why not.
pub fn enable(tables: &mut [u8], t: u8) -> Result<(), Denial>
    requires { length tables.old ≡ size }
    ensures { (words memory : List ℕ) → after (log_of result) tables.new words memory ≡ enable_of (meaning tables.old words memory) t }
{
    if is_over(tables) {
        return Err(Denial::Over);
    }
    if 32 <= t {
        return Err(Denial::NotSuspended);
    }
    let th = thread_at(tables, t);
    if th.status != Status::Suspended {
        return Err(Denial::NotSuspended);
    }
    put_thread(tables, t, th.with_status(Status::Ready));
    put_queue(
        tables,
        Line::Ready,
        queue_of(tables, Line::Ready).enqueue(t),
    );
    Ok(())
}
