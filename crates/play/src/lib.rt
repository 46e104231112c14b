// The machine goes through a schedule's entries.
#![tactic(auto)]

ghost use Rattle.std.specs.Prelude.{false, List, [], ◌∷◌, ◌++◌, ◌≡◌, ℕ, ◌+◌, ◌≤◌, ◌<◌, length, replicate};
ghost use Rattle.schedule.specs.declared.Entry.TheVariants.{Step};
ghost use Rattle.rules.specs.Denial.{log_of};
ghost use Rattle.rules.specs.Lent.{job_in};
ghost use Rattle.rules.specs.State.{job_of};
ghost use Rattle.rules.specs.Rules.{entry_of};
ghost use Rattle.tables.specs.Meaning.{meaning};
ghost use Rattle.dispatch.specs.Orderly.{after};
ghost use Rattle.entries.specs.Given.{Sounding, Stealing};
ghost use Rattle.entries.specs.Repeat.{is_step};
ghost use Rattle.play.specs.Entries.{Played};
ghost use Rattle.play.specs.Rows.{LogsOn, RowPlayed};

use dispatch::{enable, take};
use entries::steal::steal;
use entries::step::steps;
use reader::{read_at, steps_after};
use rules::{Denial, Job, log_byte};
use schedule::Entry;

// The log bytes of an entry that was met once and then again, from a position on: each time but the last it was accepted.
fn put_logs(log: &mut [u8], at: usize, again: usize, last: u8)
    requires { at + again < length log.old }
    ensures { LogsOn log.old at (replicate again 0 ++ (last ∷ [])) log.new }
{
    let end = at + again;
    log[at..end].fill(0);
    log[end] = last;
}

// An entry that is no step, or it tells why it is not accepted.
fn meet(e: Entry, job: &Job<'_>, tables: &mut [u8], words: &mut [u32]) -> Result<(), Denial>
    requires { (is_step e ≡ false) × Stealing job.now.image.now job.now.starts.now job.now.allowance tables.old words.old }
    ensures { (parameters memory : List ℕ) → after (log_of result) tables.new words.new memory ≡ entry_of (job_of job.now.image.now job.now.starts.now parameters job.now.allowance) (meaning tables.old words.old memory) e }
{
    match e {
        Entry::Take(c) => take(tables, c),
        Entry::Steal(c, t) => steal(c, t, job, tables, words),
        Entry::Enable(t) => enable(tables, t),
        // not met
        Entry::Step(_) => Ok(()),
    }
}

// As many steps of core c, each with its log byte from a position on.
fn play_row(
    c: u8,
    row: usize,
    log: &mut [u8],
    first: usize,
    job: &Job<'_>,
    tables: &mut [u8],
    words: &mut [u32],
    memory: &mut [u32],
)
    requires { Sounding job.now.image.now job.now.starts.now job.now.parameters.now job.now.allowance tables.old words.old memory.old × (first + row ≤ length log.old) }
    ensures { RowPlayed (job_in job.now) (meaning tables.old words.old memory.old) (Step c) row log.old first (meaning tables.new words.new memory.new) log.new }
{
    let mut many = row;
    let mut number = first;
    // by as many steps as were made at once, so there is no range to go over
    while 0 < many {
        let done = steps(c, many - 1, job, tables, words, memory);
        put_logs(log, number, done.again, done.log);
        number += done.again + 1;
        many -= done.again + 1;
    }
}

// The machine meets the schedule's entries one after another; each leaves its log byte at its number. It stops where the log is full, or
// where the schedule ends or is malformed. Steps of one core that follow one another are met as a row.
pub fn play(
    schedule: &[u8],
    log: &mut [u8],
    job: &Job<'_>,
    tables: &mut [u8],
    words: &mut [u32],
    memory: &mut [u32],
)
    requires { Sounding job.now.image.now job.now.starts.now job.now.parameters.now job.now.allowance tables.old words.old memory.old }
    ensures { Played (job_in job.now) (meaning tables.old words.old memory.old) schedule.now log.old (meaning tables.new words.new memory.new) log.new }
{
    let mut at: usize = 0;
    let mut number: usize = 0;
    // by as many entries as were met, so there is no range to go over
    while number < log.len() {
        let Some((e, next)) = read_at(schedule, at).unwrap_or(None) else {
            return;
        };
        let Entry::Step(c) = e else {
            log[number] = log_byte(meet(e, job, tables, words));
            number += 1;
            at = next;
            continue;
        };
        let more = steps_after(schedule, next, c);
        let follow = more.min(log.len() - number - 1);
        play_row(c, follow + 1, log, number, job, tables, words, memory);
        number += follow + 1;
        at = next + 2 * follow;
    }
}
