// A thread: its record, its pending slots, and what a command's effect on it may be. Crate `effects` computes the effect.
#![tactic(auto)]

pub mod pending;
mod record;

ghost use Rattle.std.specs.Prelude.{◌≡◌};
ghost use Rattle.thread.specs.Effect.{number_of_fault};

use window::Window;

// What a thread is doing: document 01's states of a thread record. Free comes first, so that the record of zeros is a free one.
#[derive(Clone, Copy, Debug, PartialEq, Eq)]
pub enum Status {
    Free,
    Running,
    Ready,
    Suspended,
    Waiting,
    // its connected child has the core
    Lent,
}

// What a thread has from its start to its end.
#[derive(Clone, Copy)]
pub struct Origin {
    pub routine: u8,
    // the parent's number; 32 for the root
    pub parent: u8,
    // the parent's slot that its value goes to
    pub result: u8,
    // its frame's first word among all words of the stacklets
    pub base: u16,
}

// A thread's children, and what its forks have left to it beside them.
#[derive(Clone, Copy)]
pub struct Family {
    pub window: Window,
    // one bit for each pending slot
    pub pending: u16,
    // its children that have not ended
    pub children: u8,
}

// A thread record. Its parts stand as its bytes do in the tables, so that they are copied together.
#[derive(Clone, Copy)]
pub struct Thread {
    // its next command's first byte, from its routine's start
    pub position: u16,
    pub status: Status,
    // its parent is lent, and runs on when it leaves the core
    pub connected: bool,
    pub origin: Origin,
    pub family: Family,
}

// Why a command faults: document 01's faults by their numbers, and 31.
#[derive(Clone, Copy, Debug, PartialEq, Eq)]
pub enum Fault {
    // a pending slot read or written
    SlotPending = 9,
    AddressNotAllowed = 10,
    CutOutOfRange = 11,
    // a return with pending slots
    ReturnPending = 12,
    ShareOutOfRange = 31,
}

impl Fault {
    // The number that is logged.
    pub fn number(self) -> u8
        ensures { result ≡ number_of_fault self }
    {
        self as u8
    }
}

// The effect of a command, computed from the thread's own slots, pending slots and window alone.
#[derive(Clone, Copy)]
pub enum Effect {
    // the command faults
    Faults(Fault),
    // a slot becomes a value
    Sets(u8, u32),
    // a slot becomes the word at an address
    Loads(u8, u32),
    // the word at an address becomes a value
    Stores(u32, u32),
    // the thread goes to a target
    Goes(u16),
    // the thread goes on to the next command
    Continues,
    // routine, result slot, first argument's slot, cut; no named fields: each match of them then takes eight lines more, and `carry_other` 48
    Lforks(u8, u8, u8, u32),
    Forks(u8, u8, u8, u32),
    Joins,
    Suspends,
    Yields,
    Returns(u32),
    // the words from an address up to hi are shared for reading
    Shares(u32),
}
