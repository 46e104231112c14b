// Thread records, of 24 bytes each.
ghost use Rattle.std.specs.Prelude.{◌≡◌, ◌*◌, ◌%◌, ◌≤◌};
ghost use Rattle.thread.specs.Thread.{blank_thread};
ghost use Rattle.rules.specs.State.{thread_at};
ghost use Rattle.rules.specs.Update.{set_thread};
ghost use Rattle.tables.specs.Change.{Reads, Becomes, moves_on};

use crate::SIZE;
use cells::{WIDE, read_record, write_record};
use thread::Thread;

// The bytes of the thread table: it stands first in the tables, record after record.
pub const THREADS: usize = 768;

// Where thread t's record starts.
fn place_of(t: u8) -> usize
    ensures { (result ≡ 24 * (t % 32)) × (result ≤ 744) }
{
    WIDE * ((t % 32) as usize)
}

// Thread t's record.
pub fn thread_at(tables: &[u8], t: u8) -> Thread
    ensures { Reads tables.now result (λ s. thread_at s (t % 32)) blank_thread }
{
    if tables.len() != SIZE {
        return Thread::blank();
    }
    let a = place_of(t);
    read_record(&tables[a..a + WIDE])
}

// Thread t's record becomes th.
pub fn put_thread(tables: &mut [u8], t: u8, th: Thread)
    ensures { Becomes tables.old tables.new (set_thread (t % 32) th) }
{
    if tables.len() != SIZE {
        return;
    }
    let a = place_of(t);
    write_record(&mut tables[a..a + WIDE], th);
}

// Thread t's next command is at p.
pub fn put_position(tables: &mut [u8], t: u8, p: u16)
    ensures { Becomes tables.old tables.new (moves_on (t % 32) p) }
{
    if tables.len() != SIZE {
        return;
    }
    let a = place_of(t);
    [tables[a], tables[a + 1]] = p.to_le_bytes();
}
