// Frames on the stacklets: where one goes, and how it comes and goes.
ghost use Rattle.std.specs.Prelude.{◌≡◌, ◌%◌, false};
ghost use Rattle.stacklets.specs.Tops.{base_on, fits_on, is_topmost};
ghost use Rattle.stacklets.specs.Frames.{arguments_at, wiped};
ghost use Rattle.tables.specs.Change.{Reads, Becomes, Pushes, pushes, pops};

use crate::SIZE;
use crate::lines::{put_top, top_at};
use stacklets::{lay_frame, wipe_frame};

// Where the next frame on a stacklet starts.
pub fn next_base(tables: &[u8], x: u8) -> u16
    ensures { Reads tables.now result (λ s. base_on s.store.tops (x % 16)) 0 }
{
    if tables.len() != SIZE {
        return 0;
    }
    64 * ((x % 16) as u16) + (top_at(tables, x) as u16)
}

// Does a frame of so many words fit above the top of a stacklet?
pub fn fits(tables: &[u8], x: u8, slots: u8) -> bool
    ensures { Reads tables.now result (λ s. fits_on s.store.tops (x % 16) slots) false }
{
    if tables.len() != SIZE {
        return false;
    }
    (top_at(tables, x) as u16) + (slots as u16) <= 64
}

// Does the frame at a base, of so many words, end at its stacklet's top? There are 1,024 bases.
pub fn is_topmost(tables: &[u8], base: u16, slots: u8) -> bool
    ensures { Reads tables.now result (λ s. is_topmost s.store.tops (base % 1024) slots) false }
{
    if tables.len() != SIZE {
        return false;
    }
    let top = top_at(tables, (base % 1024 / 64) as u8);
    base % 64 + (slots as u16) == (top as u16)
}

// A new frame above a stacklet's top, its arguments the words from `from` on. Nothing changes where it does not fit.
pub fn push_frame(tables: &mut [u8], words: &mut [u32], x: u8, slots: u8, from: u16, given: u8)
    ensures tops { Becomes tables.old tables.new (pushes (x % 16) slots) }
    ensures words { Pushes tables.old (x % 16) slots (arguments_at words.old from given) words.old words.new }
{
    if tables.len() != SIZE {
        return;
    }
    if fits(tables, x, slots) {
        let base = next_base(tables, x);
        lay_frame(words, base, slots, from, given);
        let top = top_at(tables, x);
        put_top(tables, x, top + slots);
    }
}

// The frame at a base, of so many words, is given back: its words are cleared, and it goes with all above it. The top of its stacklet is that
// of the base's remainder.
pub fn pop_frame(tables: &mut [u8], words: &mut [u32], base: u16, slots: u8)
    ensures tops { Becomes tables.old tables.new (pops (base % 1024)) }
    ensures words { words.new ≡ wiped words.old base slots }
{
    wipe_frame(words, base, slots);
    put_top(tables, (base % 1024 / 64) as u8, (base % 64) as u8);
}
