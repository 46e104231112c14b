// The tests of a round of the built-in scheduler: whether it goes on, and which entries it writes.
#![tactic(auto)]

ghost use Rattle.std.specs.Prelude.{not, ◌&&◌, ◌||◌, ◌≡◌, eqb, leb};
ghost use Rattle.rounds.specs.Rounds.{is_written, usable};

// The most bytes of a buffer that are used.
const MOST: usize = 32768;

// The bytes that must be left before a try.
const LEAST: usize = 3;

// May an entry be tried, with so many bytes left?
pub fn may_try(over: bool, left: usize) -> bool
    ensures { result ≡ (not over && leb 3 left) }
{
    !over && LEAST <= left
}

// Is an entry with this log byte accepted, or does it fault?
pub fn is_written(log: u8) -> bool
    ensures { result ≡ is_written log }
{
    matches!(log, 0 | 9..=12 | 31)
}

// Was an entry of this round accepted, the last one with this log byte?
pub fn is_moved(moved: bool, log: u8) -> bool
    ensures { result ≡ (moved || eqb log 0) }
{
    moved || log == 0
}

// How many bytes of a buffer are used.
pub fn usable_of(length: usize) -> usize
    ensures { result ≡ usable length }
{
    length.min(MOST)
}
