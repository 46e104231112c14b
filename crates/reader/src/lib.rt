// "An entry reader keeps the schedule together with the next entry's position." Its methods take it apart and leave the work to
// `schedule::read`, which takes a slice and a number.
#![tactic(auto)]

ghost use Rattle.std.specs.Prelude.{◌≡◌};
ghost use Rattle.schedule.specs.Format.{EntryAnswer};
ghost use Rattle.reader.specs.Row.{is_pair, are_four, StepsRow};

use schedule::{Entry, Malformed};

// A schedule, and the position of its next entry.
#[derive(Clone, Copy, Debug, PartialEq, Eq)]
pub struct EntryReader<'a> {
    pub schedule: &'a [u8],
    pub at: usize,
}

impl<'a> EntryReader<'a> {
    // A reader at a schedule's front.
    pub fn new(schedule: &'a [u8]) -> EntryReader<'a>
        ensures { (result.schedule ≡ schedule.entry) × (result.at ≡ 0) }
    {
        EntryReader { schedule, at: 0 }
    }

    // What the reader finds at its position.
    pub fn entry(self) -> Result<Option<(Entry, usize)>, Malformed>
        ensures { EntryAnswer self.entry.schedule.now self.entry.at result }
    {
        schedule::read(self.schedule, self.at)
    }

    // The reader at another position.
    pub fn moved(self, at: usize) -> EntryReader<'a>
        ensures { (result.schedule ≡ self.entry.schedule) × (result.at ≡ at) }
    {
        EntryReader { at, ..self }
    }
}

// What a reader finds at a position, for callers with plain parameters. The entry at the front, or the one after it, is a wrong answer.
pub fn read_at(schedule: &[u8], at: usize) -> Result<Option<(Entry, usize)>, Malformed>
    ensures { EntryAnswer schedule.now at result }
{
    EntryReader::new(schedule).moved(at).entry()
}

// The byte of a step entry.
const STEP: u8 = 1;

// Do two bytes with this number stand at a position? A step and its core are compared at once.
#[tactic(auto, unfolding(crate::specs::Row::is_pair))]
fn is_step(schedule: &[u8], at: usize, key: u16) -> bool
    ensures { result ≡ is_pair schedule.now at key }
{
    let length = schedule.len();
    2 <= length && at <= length - 2 && u16::from_le_bytes([schedule[at], schedule[at + 1]]) == key
}

// Do eight bytes stand at a position, four pairs with this number?
#[tactic(auto, unfolding(crate::specs::Row::are_four))]
fn are_four(schedule: &[u8], at: usize, key: u16) -> bool
    ensures { result ≡ are_four schedule.now at key }
{
    let length = schedule.len();
    8 <= length
        && at <= length - 8
        && u16::from_le_bytes([schedule[at], schedule[at + 1]]) == key
        && u16::from_le_bytes([schedule[at + 2], schedule[at + 3]]) == key
        && u16::from_le_bytes([schedule[at + 4], schedule[at + 5]]) == key
        && u16::from_le_bytes([schedule[at + 6], schedule[at + 7]]) == key
}

// How many steps of core c stand from a position on, one after another. Four are compared at a time, for long rows. A row that ends before
// its last step, or that goes on over a take or another core's step, is a wrong answer.
pub fn steps_after(schedule: &[u8], at: usize, c: u8) -> usize
    ensures { StepsRow schedule.now at c result }
{
    let key = u16::from_le_bytes([STEP, c]);
    if !is_step(schedule, at, key) {
        return 0;
    }
    let mut i = at + 2;
    while are_four(schedule, i, key) {
        i += 8;
    }
    while is_step(schedule, i, key) {
        i += 2;
    }
    (i - at) / 2
}
