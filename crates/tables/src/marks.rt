// Cores, units and outcome.
ghost use Rattle.std.specs.Prelude.{◌%◌, false};
ghost use Rattle.rules.specs.State.{on_core, is_over, going, finished, faulted};
ghost use Rattle.rules.specs.Update.{set_core, set_outcome};
ghost use Rattle.tables.specs.Change.{Reads, Becomes, Clears, set_units, set_count, charges, outcome_by};

use crate::numbers::{four_at, put_four};
use crate::{SIZE, Standing};
use std::num::wrapping_add_u32;

const CORES: usize = 768;

const UNITS: usize = 772;

const COUNT: usize = 776;

// How the machine stands: 0 open, 1 finished, 2 faulted.
const OVER: usize = 777;

const FAULT: usize = 778;

const FAULT_THREAD: usize = 779;

const FAULT_OFFSET: usize = 780;

const RESULT: usize = 782;

// Every byte becomes 0.
pub fn clear(tables: &mut [u8])
    ensures { Clears tables.old tables.new }
{
    if tables.len() != SIZE {
        return;
    }
    tables.fill(0);
}

// The thread on core c; 32 where there is none.
pub fn core_at(tables: &[u8], c: u8) -> u8
    ensures { Reads tables.now result (λ s. on_core s (c % 4)) 0 }
{
    if tables.len() != SIZE {
        return 0;
    }
    tables[CORES + ((c % 4) as usize)]
}

pub fn put_core(tables: &mut [u8], c: u8, t: u8)
    ensures { Becomes tables.old tables.new (set_core (c % 4) t) }
{
    if tables.len() != SIZE {
        return;
    }
    tables[CORES + ((c % 4) as usize)] = t;
}

// How many cores there are.
pub fn count(tables: &[u8]) -> u8
    ensures { Reads tables.now result (λ s. s.count) 0 }
{
    if tables.len() != SIZE {
        return 0;
    }
    tables[COUNT]
}

pub fn put_count(tables: &mut [u8], n: u8)
    ensures { Becomes tables.old tables.new (set_count n) }
{
    if tables.len() != SIZE {
        return;
    }
    tables[COUNT] = n;
}

pub fn units(tables: &[u8]) -> u32
    ensures { Reads tables.now result (λ s. s.units) 0 }
{
    if tables.len() != SIZE {
        return 0;
    }
    four_at(tables, UNITS)
}

pub fn put_units(tables: &mut [u8], n: u32)
    ensures { Becomes tables.old tables.new (set_units n) }
{
    if tables.len() != SIZE {
        return;
    }
    put_four(tables, UNITS, n);
}

// A weight is charged.
pub fn charge(tables: &mut [u8], weight: u8)
    ensures { Becomes tables.old tables.new (charges weight) }
{
    let so_far = units(tables);
    put_units(tables, wrapping_add_u32(so_far, u32::from(weight)));
}

// Is the machine over?
pub fn is_over(tables: &[u8]) -> bool
    ensures { Reads tables.now result (λ s. is_over s.outcome) false }
{
    if tables.len() != SIZE {
        return false;
    }
    tables[OVER] != 0
}

// How the machine stands.
pub fn standing(tables: &[u8]) -> Standing
    ensures { Reads tables.now (outcome_by result) (λ s. s.outcome) going }
{
    if tables.len() != SIZE {
        return Standing::Going;
    }
    match tables[OVER] {
        0 => Standing::Going,
        1 => Standing::Over(four_at(tables, RESULT)),
        _ => Standing::Failed(
            tables[FAULT],
            tables[FAULT_THREAD],
            u16::from_le_bytes([tables[FAULT_OFFSET], tables[FAULT_OFFSET + 1]]),
        ),
    }
}

// The machine is finished, with a result.
pub fn finish(tables: &mut [u8], v: u32)
    ensures { Becomes tables.old tables.new (set_outcome (finished v)) }
{
    if tables.len() != SIZE {
        return;
    }
    tables[OVER] = 1;
    put_four(tables, RESULT, v);
}

// The machine has faulted by a number, at a thread and its command's first byte in the image.
pub fn fail(tables: &mut [u8], n: u8, t: u8, offset: u16)
    ensures { Becomes tables.old tables.new (set_outcome (faulted n t offset)) }
{
    if tables.len() != SIZE {
        return;
    }
    tables[OVER] = 2;
    tables[FAULT] = n;
    tables[FAULT_THREAD] = t;
    [tables[FAULT_OFFSET], tables[FAULT_OFFSET + 1]] = offset.to_le_bytes();
}
