// What a core tries, and which thread is enabled, as the lent tables have it. Nothing is asked of the caller: any number of cores is gone
// through, and each contract says what tables of another size give, which are read as nothing.
#![tactic(auto)]

ghost use Rattle.std.specs.Prelude.{◌&&◌, ◌||◌, List, ◌≡◌, ℕ, ◌+◌, eqb, get_or};
ghost use Rattle.schedule.specs.declared.Entry.TheVariants.{Step, Steal};
ghost use Rattle.thread.specs.declared.Status.TheVariants.{Lent};
ghost use Rattle.thread.specs.Thread.{◌is◌};
ghost use Rattle.rules.specs.State.{job_of, on_core};
ghost use Rattle.tables.specs.Change.{Reads};
ghost use Rattle.search.specs.Search.{lent_parent, first_seed, idle_choice, choice_of, is_nothing, lowest_suspended};

use command::byte_at;
use rules::Job;
use schedule::Entry;
use tables::lines::{Line, queue_of};
use tables::marks::{core_at, count};
use tables::records::thread_at;
use thread::{Status, Thread};

// No thread.
const NONE: u8 = 32;

// The lent parent of a connected thread.
fn lent_parent(h: Thread) -> u8
    ensures { result ≡ lent_parent h }
{
    if h.connected { h.origin.parent } else { NONE }
}

// Is a thread with this record lent, its next command an 08 or 09?
fn is_seed(h: Thread, job: &Job<'_>) -> bool
    ensures { result ≡ (h.status is Lent && (eqb (get_or job.now.image.now (get_or job.now.starts.now h.origin.routine 0 + h.position) 0) 8 || eqb (get_or job.now.image.now (get_or job.now.starts.now h.origin.routine 0 + h.position) 0) 9)) }
{
    h.status == Status::Lent
        && matches!(
            byte_at(job.image, job.place_of(h.origin.routine, h.position)),
            8 | 9
        )
}

// The thread on core c; from core 4 on, where the tables have none, it is 0, as the rules have it.
fn on_core(tables: &[u8], c: u8) -> u8
    ensures { Reads tables.now result (λ s. on_core s c) 0 }
{
    if 4 <= c {
        return 0;
    }
    core_at(tables, c)
}

// The first seed on the cores' chains of lent parents, from core 0 on.
fn find_seed(tables: &[u8], job: &Job<'_>) -> u8
    ensures { (parameters : List ℕ) (allowance : ℕ) → Reads tables.now result (λ s. first_seed (job_of job.now.image.now job.now.starts.now parameters allowance) s) 32 }
{
    let cores = count(tables);
    let mut c: u8 = 0;
    // Document 01 has a found thread leave both loops as the break's value, which a `for` can't have.
    'search: loop {
        if cores <= c {
            break NONE;
        }
        let mut t = on_core(tables, c);
        for _ in 0..32u8 {
            if NONE <= t {
                break;
            }
            let h = thread_at(tables, t);
            if is_seed(h, job) {
                break 'search t;
            }
            t = lent_parent(h);
        }
        c += 1;
    }
}

// What an idle core c tries.
fn idle_choice(c: u8, tables: &[u8], job: &Job<'_>) -> Entry
    ensures { (parameters : List ℕ) (allowance : ℕ) → Reads tables.now result (λ s. idle_choice (job_of job.now.image.now job.now.starts.now parameters allowance) s c) (Steal c 32) }
{
    let q = queue_of(tables, Line::Ready);
    if 0 < q.len() {
        return Entry::Take(c);
    }
    Entry::Steal(c, find_seed(tables, job))
}

// What core c tries.
pub fn choice(c: u8, tables: &[u8], job: &Job<'_>) -> Entry
    ensures { (parameters : List ℕ) (allowance : ℕ) → Reads tables.now result (λ s. choice_of (job_of job.now.image.now job.now.starts.now parameters allowance) s c) (Step c) }
{
    if on_core(tables, c) < NONE {
        return Entry::Step(c);
    }
    idle_choice(c, tables, job)
}

// Is this the steal of no thread, which is no try?
pub fn is_nothing(entry: Entry) -> bool
    ensures { result ≡ is_nothing entry }
{
    match entry {
        Entry::Steal(_, t) => NONE <= t,
        Entry::Step(_) | Entry::Take(_) | Entry::Enable(_) => false,
    }
}

// The lowest suspended thread.
pub fn lowest_suspended(tables: &[u8]) -> u8
    ensures { Reads tables.now result lowest_suspended 32 }
{
    for t in 0..NONE {
        if thread_at(tables, t).status == Status::Suspended {
            return t;
        }
    }
    NONE
}
