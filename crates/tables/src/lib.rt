// The machine's tables in one lent slice of bytes: where each part stands, how it is read and how it is stored. This crate alone knows the
// layout (`cells` has the bytes of one thread record); those above know of the bytes what they mean (`meaning`). Nothing is asked of the caller:
// a number of a thread, core or stacklet is taken by its remainder, and tables of another size are read as nothing and never changed.
// So each function begins with a test of the size: one that gave the part at a place, or None, would need the same `else { return .. }` behind it.
#![tactic(auto)]

pub mod frames;
pub mod lines;
pub mod marks;
mod numbers;
pub mod records;

// How many bytes the tables have.
pub const SIZE: usize = 904;

// How the machine stands.
#[derive(Clone, Copy, Debug, PartialEq, Eq)]
pub enum Standing {
    Going,
    Over(u32),
    // a fault by its number, as the tables hold it, where any byte may stand; its thread and offset
    Failed(u8, u8, u16),
}
