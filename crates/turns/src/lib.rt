// The rounds of the built-in scheduler: each core in turn tries an entry, and what is accepted or faults is written.
#![tactic(auto)]

ghost use Rattle.std.specs.Prelude.{◌≡◌, ◌+◌, ◌≤◌, length};
ghost use Rattle.schedule.specs.Format.{bytes_of_entry, bytes_of_entries};
ghost use Rattle.rules.specs.Lent.{job_in};
ghost use Rattle.tables.specs.Meaning.{meaning};
ghost use Rattle.entries.specs.Given.{Sounding};
ghost use Rattle.turns.specs.Steps.{steps_behind, kept, Puts, Keeps, Rounded};

use dispatch::enable;
use entries::entry;
use rounds::{is_moved, is_written, may_try, usable_of};
use rules::{Job, log_byte};
use schedule::Entry;
use search::{choice, is_nothing, lowest_suspended};
use tables::marks::{count, is_over};

// How many steps of a machine's only core may follow a first one, with so many bytes left: before each 3 must be left. A core among others
// makes one step at a time.
fn steps_behind(cores: u8, left: usize) -> usize
    ensures { result ≡ steps_behind cores left }
{
    // the second test is met by no caller; with it what follows is worked out for a step alone
    if cores != 1 || left < 3 {
        return 0;
    }
    (left - 3) / 2
}

// Writes an entry; gives the position behind it.
fn put(entry: Entry, buffer: &mut [u8], at: usize) -> usize
    requires { at + length (bytes_of_entry entry) ≤ length buffer.old }
    ensures { Puts (bytes_of_entry entry) buffer.old at result buffer.new }
{
    at + schedule::write(entry, buffer, at).unwrap_or(0)
}

// Writes an entry that was carried out once and then again, each time accepted but perhaps the last, which is written if it is accepted or
// faults; gives the position behind.
fn keep(entry: Entry, again: usize, log: u8, buffer: &mut [u8], at: usize) -> usize
    requires { at + length (bytes_of_entries (kept entry again log)) ≤ length buffer.old }
    ensures { Keeps entry again log buffer.old at result buffer.new }
{
    let mut end = at;
    for _ in 0..again {
        end = put(entry, buffer, end);
    }
    if !is_written(log) {
        return end;
    }
    put(entry, buffer, end)
}

// Rounds until the machine is over, the buffer is used up or nothing can be enabled; gives how many bytes of the buffer the entries have.
pub fn play_rounds(
    job: &Job<'_>,
    tables: &mut [u8],
    words: &mut [u32],
    memory: &mut [u32],
    buffer: &mut [u8],
) -> usize
    requires { Sounding job.now.image.now job.now.starts.now job.now.parameters.now job.now.allowance tables.old words.old memory.old }
    ensures { Rounded (job_in job.now) (meaning tables.old words.old memory.old) buffer.old (meaning tables.new words.new memory.new) result buffer.new }
{
    let cores = count(tables);
    let room = usable_of(buffer.len());
    let mut at: usize = 0;
    let mut c: u8 = 0;
    let mut moved = false;
    // one loop for cores and rounds, since either may end it; a core's turn is a number that goes on or starts again
    while may_try(is_over(tables), room - at) {
        if c < cores {
            let e = choice(c, tables, job);
            c += 1;
            if is_nothing(e) {
                continue;
            }
            let done = entry(
                e,
                steps_behind(cores, room - at),
                job,
                tables,
                words,
                memory,
            );
            at = keep(e, done.again, done.log, buffer, at);
            moved = is_moved(moved, done.log);
            continue;
        }
        c = 0;
        if moved {
            moved = false;
            continue;
        }
        let t = lowest_suspended(tables);
        if 32 <= t {
            return at;
        }
        at = keep(Entry::Enable(t), 0, log_byte(enable(tables, t)), buffer, at);
    }
    at
}
