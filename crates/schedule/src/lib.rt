// A schedule: a run of entries, each one command byte with one or two operand bytes. An entry is read at a position and
// written at a position, and the entries of a whole schedule are counted, which is where document 01's number 13 is found.
#![tactic(auto)]

ghost use Rattle.std.specs.Prelude.{◌≡◌};
ghost use Rattle.schedule.specs.Format.{bytes_of_entry, EntryAnswer};
ghost use Rattle.schedule.specs.Four.{four_steps};
ghost use Rattle.schedule.specs.Meaning.{Counts};
ghost use Rattle.schedule.specs.Writing.{Writes};

// The longest schedule, in bytes.
const LONGEST: usize = 32768;

// The byte of a step.
const STEP: u8 = 1;

// One entry: 01 c, 02 c, 03 c t, 04 t.
#[derive(Clone, Copy, Debug, PartialEq, Eq)]
pub enum Entry {
    Step(u8),
    Take(u8),
    Steal(u8, u8),
    Enable(u8),
}

// An unknown byte, a cut entry or too long a schedule.
#[derive(Clone, Copy, Debug, PartialEq, Eq)]
pub struct Malformed;

// The entry does not fit: nothing was written.
#[derive(Clone, Copy, Debug, PartialEq, Eq)]
pub struct NoRoom;

// The entry at a position of a schedule, and the position after it; none at the schedule's end.
pub fn read(schedule: &[u8], at: usize) -> Result<Option<(Entry, usize)>, Malformed>
    ensures { EntryAnswer schedule.now at result }
{
    let length = schedule.len();
    if length <= at {
        return Ok(None);
    }
    let left = length - at;
    if left < 2 {
        return Err(Malformed);
    }
    let first = schedule[at + 1];
    // No slice pattern: it gives the proof no fact of the bytes that it compares.
    match schedule[at] {
        STEP => Ok(Some((Entry::Step(first), at + 2))),
        2 => Ok(Some((Entry::Take(first), at + 2))),
        3 if 3 <= left => Ok(Some((Entry::Steal(first, schedule[at + 2]), at + 3))),
        4 => Ok(Some((Entry::Enable(first), at + 2))),
        _ => Err(Malformed),
    }
}

// Do four steps stand at a position? They are looked at together, since most schedules are steps.
#[tactic(auto, unfolding(crate::specs::Four::four_steps))]
fn four_steps(schedule: &[u8], at: usize) -> bool
    ensures { result ≡ four_steps schedule.now at }
{
    let length = schedule.len();
    8 <= length
        && at <= length - 8
        && schedule[at] == STEP
        && schedule[at + 2] == STEP
        && schedule[at + 4] == STEP
        && schedule[at + 6] == STEP
}

// The number of entries of a whole schedule, four steps at once where they stand.
pub fn count(schedule: &[u8]) -> Result<usize, Malformed>
    ensures { Counts schedule.now result }
{
    if LONGEST < schedule.len() {
        return Err(Malformed);
    }
    let mut at: usize = 0;
    let mut entries: usize = 0;
    loop {
        if four_steps(schedule, at) {
            at += 8;
            entries += 4;
            continue;
        }
        match read(schedule, at)? {
            Some((_, after)) => {
                at = after;
                entries += 1;
            }
            None => return Ok(entries),
        }
    }
}

// Bytes at a position, if they fit.
fn put(bytes: &[u8], buffer: &mut [u8], at: usize) -> Result<usize, NoRoom>
    ensures { Writes bytes.now buffer.old at result buffer.new }
{
    let length = buffer.len();
    if length < bytes.len() || length - bytes.len() < at {
        return Err(NoRoom);
    }
    buffer[at..at + bytes.len()].copy_from_slice(bytes);
    Ok(bytes.len())
}

// An entry's bytes at a position of a buffer; the other bytes stay. An entry that does not fit leaves all bytes as they were.
pub fn write(entry: Entry, buffer: &mut [u8], at: usize) -> Result<usize, NoRoom>
    ensures { Writes (bytes_of_entry entry) buffer.old at result buffer.new }
{
    match entry {
        Entry::Step(c) => put(&[STEP, c], buffer, at),
        Entry::Take(c) => put(&[2, c], buffer, at),
        Entry::Steal(c, t) => put(&[3, c, t], buffer, at),
        Entry::Enable(t) => put(&[4, t], buffer, at),
    }
}
