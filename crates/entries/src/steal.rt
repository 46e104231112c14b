// A steal: an idle core carries out a lent thread's next command as a seed.
ghost use Rattle.std.specs.Prelude.{◌≡◌, ℕ, List, slice_index};
ghost use Rattle.rules.specs.State.{job_of};
ghost use Rattle.rules.specs.Denial.{log_of};
ghost use Rattle.rules.specs.Rules.{stolen_of, steal_of};
ghost use Rattle.tables.specs.Meaning.{meaning};
ghost use Rattle.entries.specs.Given.{SeedMet, Stealing, seed_of, turn_in};
ghost use Rattle.dispatch.specs.Orderly.{after};

use crate::Seat;
use crate::fork::fork;
use command::{five_at, weight};
use effects::View;
use rules::{Denial, ForkKind, Job};
use statuses::is_fork;
use tables::marks::{core_at, count, fail, is_over, units};
use tables::records::thread_at;
use thread::{Effect, Status, Thread};

// The effect of a fork's five bytes on a thread.
fn seed_of(th: Thread, five: [u8; 5], image: &[u8], words: &[u32]) -> Effect
    ensures { result ≡ seed_of image.now words.now th (slice_index five 1) (slice_index five 2) (slice_index five 3) (slice_index five 4) }
{
    View::of(words, th).fork(image, five[1], five[2], five[3], five[4])
}

// Carries out the seed of a seat's thread, whose effect is a fork or a fault; behind the command is `next`, and its first byte is at a place.
fn carry_seed(
    tables: &mut [u8],
    words: &mut [u32],
    seed: Effect,
    at: Seat,
    next: u16,
    place: u16,
    image: &[u8],
) -> Result<(), Denial>
    requires { SeedMet tables.old at.core at.thread at.weight seed }
    ensures { (starts parameters memory : List ℕ) (allowance : ℕ) → after (log_of result) tables.new words.new memory ≡ stolen_of (job_of image.now starts parameters allowance) (meaning tables.old words.old memory) (turn_in tables.old at.core at.thread at.weight next place) seed }
{
    match seed {
        Effect::Forks(r, d, a, e) => {
            let kind = ForkKind::Stolen;
            fork(tables, words, kind, at, next, image, r, d, a, e)
        }
        Effect::Faults(fault) => {
            fail(tables, fault.number(), at.thread, place);
            Err(Denial::Faults(fault))
        }
        Effect::Lforks(r, d, a, e) => Err(Denial::NoSeed),
        Effect::Sets(d, v) => Err(Denial::NoSeed),
        Effect::Loads(d, a) => Err(Denial::NoSeed),
        Effect::Stores(a, v) => Err(Denial::NoSeed),
        Effect::Goes(p) => Err(Denial::NoSeed),
        Effect::Continues => Err(Denial::NoSeed),
        Effect::Joins => Err(Denial::NoSeed),
        Effect::Suspends => Err(Denial::NoSeed),
        Effect::Yields => Err(Denial::NoSeed),
        Effect::Returns(v) => Err(Denial::NoSeed),
        Effect::Shares(s) => Err(Denial::NoSeed),
    }
}

// Core c carries out the next command of lent thread t, or it tells why not.
pub fn steal(
    c: u8,
    t: u8,
    job: &Job<'_>,
    tables: &mut [u8],
    words: &mut [u32],
) -> Result<(), Denial>
    requires { Stealing job.now.image.now job.now.starts.now job.now.allowance tables.old words.old }
    ensures { (parameters memory : List ℕ) → after (log_of result) tables.new words.new memory ≡ steal_of (job_of job.now.image.now job.now.starts.now parameters job.now.allowance) (meaning tables.old words.old memory) c t }
{
    if is_over(tables) {
        return Err(Denial::Over);
    }
    if count(tables) <= c {
        return Err(Denial::NoCore);
    }
    if core_at(tables, c) < 32 {
        return Err(Denial::WrongCore);
    }
    if 32 <= t {
        return Err(Denial::NoSeed);
    }
    let th = thread_at(tables, t);
    if th.status != Status::Lent {
        return Err(Denial::NoSeed);
    }
    let place = job.place_of(th.origin.routine, th.position);
    let five = five_at(job.image, place);
    if !is_fork(five[0]) {
        return Err(Denial::NoSeed);
    }
    let cost = weight(five[0]);
    if job.allowance - units(tables) < (cost as u32) {
        return Err(Denial::TooDear);
    }
    let seed = seed_of(th, five, job.image, words);
    let at = Seat {
        core: c,
        thread: t,
        weight: cost,
    };
    carry_seed(
        tables,
        words,
        seed,
        at,
        th.position + 5,
        place as u16,
        job.image,
    )
}
