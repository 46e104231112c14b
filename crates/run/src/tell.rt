// What a run tells of its machine: how it stands as an answer, its records in each state, and the status of each.
ghost use Rattle.tables.specs.Change.{Reads};
ghost use Rattle.std.specs.Prelude.{[], replicate};
ghost use Rattle.census.specs.Counted.{census_of};
ghost use Rattle.demands.specs.declared.RunAnswer.TheVariants.{Open};
ghost use Rattle.demands.specs.Input.{answer_of};
ghost use Rattle.run.specs.Machine.{statuses_of, ShownBy};

use crate::{RunAnswer, Shown};
use census::{Census, count};
use tables::marks::{standing, units};
use tables::records::{THREADS, thread_at};
use tables::{SIZE, Standing};

// How the machine stands, by its tables. Tables of another size tell an open machine with no units.
pub fn answer(tables: &[u8]) -> RunAnswer
    ensures { Reads tables.now result (λ s. answer_of s.outcome s.units) (Open 0) }
{
    let so_far = units(tables);
    match standing(tables) {
        Standing::Going => RunAnswer::Open { units: so_far },
        Standing::Over(result) => RunAnswer::Finished {
            result,
            units: so_far,
        },
        Standing::Failed(number, thread, offset) => RunAnswer::Faulted {
            number,
            thread,
            offset,
        },
    }
}

// The records in each state, counted over the thread table. Tables of another size have none.
pub fn counts(tables: &[u8]) -> Census
    ensures { Reads tables.now result (λ s. census_of s.threads) (census_of []) }
{
    if tables.len() != SIZE {
        return count(&tables[0..0]);
    }
    count(&tables[0..THREADS])
}

// The status number of each thread record; zeros for tables of another size.
pub fn statuses(tables: &[u8]) -> [u8; 32]
    ensures { Reads tables.now result (λ s. statuses_of s.threads) (replicate 32 0) }
{
    let mut all = [0u8; 32];
    for (t, status) in all.iter_mut().enumerate() {
        *status = thread_at(tables, t as u8).status.number();
    }
    all
}

// An answer with what the tables tell.
pub fn shown(answer: RunAnswer, tables: &[u8]) -> Shown
    ensures { ShownBy answer tables.now result }
{
    Shown {
        answer,
        counts: counts(tables),
        statuses: statuses(tables),
    }
}
