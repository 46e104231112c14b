// How many records of the thread table are in each state.
#![tactic(auto)]

ghost use Rattle.std.specs.Prelude.{◌≡◌};
ghost use Rattle.census.specs.Counted.{census_of};
ghost use Rattle.census.specs.Table.{records_of};

use cells::{WIDE, read_record};

// The records in each state.
#[derive(Clone, Copy)]
pub struct Census {
    pub free: usize,
    pub running: usize,
    pub ready: usize,
    pub suspended: usize,
    pub waiting: usize,
    pub lent: usize,
}

// The records of a lent table in each state, in one pass. It takes bytes of any number: record after record, 24 bytes each, and fewer behind
// the last one are none. A count by the state's number: a `match` took 148 instructions a run more.
pub fn count(records: &[u8]) -> Census
    ensures { result ≡ census_of (records_of records.now) }
{
    let mut counts = [0; 6];
    for cells in records.chunks_exact(WIDE) {
        counts[usize::from(read_record(cells).status.number())] += 1;
    }
    let [free, running, ready, suspended, waiting, lent] = counts;
    Census {
        free,
        running,
        ready,
        suspended,
        waiting,
        lent,
    }
}
