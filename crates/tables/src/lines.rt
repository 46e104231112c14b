// The three queues, loaded and stored whole, and the stacklets' tops.
ghost use Rattle.std.specs.Prelude.{◌≡◌, ◌+◌, ◌%◌, ◌<◌, ◌≤◌, [], length, slice_index};
ghost use Rattle.queue.specs.Contents.{contents};
ghost use Rattle.stacklets.specs.Tops.{tops_of, top_at};
ghost use Rattle.rules.specs.Update.{set_tops};
ghost use Rattle.tables.specs.Cells.{Outside};
ghost use Rattle.tables.specs.Meaning.{queue_in, place_of};
ghost use Rattle.tables.specs.Change.{Reads, Becomes, queue_of, set_queue, set_top};

use crate::SIZE;
use queue::Queue;
use stacklets::{Stacklets, read_top, write_top};

const TOPS: usize = 786;

const FREE_THREADS: usize = 802;

const FREE_STACKLETS: usize = 836;

const READY: usize = 870;

// The three queues: the free thread numbers, the free stacklets and the ready threads.
#[derive(Clone, Copy, Debug, PartialEq, Eq)]
pub enum Line {
    FreeThreads,
    FreeStacklets,
    Ready,
}

impl Line {
    // Where the queue stands.
    fn place(self) -> usize
        ensures { (result ≡ place_of self) × (result ≤ 870) }
    {
        match self {
            Line::FreeThreads => FREE_THREADS,
            Line::FreeStacklets => FREE_STACKLETS,
            Line::Ready => READY,
        }
    }
}

// The queue at a place.
fn queue_at(tables: &[u8], at: usize) -> Queue
    requires { at + 34 ≤ length tables.now }
    ensures { result ≡ queue_in tables.now at }
{
    let mut places = [0; 32];
    places.copy_from_slice(&tables[at..at + 32]);
    Queue {
        places,
        head: tables[at + 32],
        len: tables[at + 33],
    }
}

// The queue at a place becomes q.
fn put_queue_at(tables: &mut [u8], at: usize, q: Queue)
    requires { at + 34 ≤ length tables.old }
    ensures { (queue_in tables.new at ≡ q) × Outside tables.old tables.new at 34 }
{
    tables[at..at + 32].copy_from_slice(&q.places);
    tables[at + 32] = q.head;
    tables[at + 33] = q.len;
}

// One of the three queues.
pub fn queue_of(tables: &[u8], which: Line) -> Queue
    ensures { Reads tables.now (contents result) (queue_of which) [] }
{
    if tables.len() != SIZE {
        return Queue::new();
    }
    queue_at(tables, which.place())
}

// One of the three queues becomes q.
pub fn put_queue(tables: &mut [u8], which: Line, q: Queue)
    ensures { Becomes tables.old tables.new (set_queue which (contents q)) }
{
    if tables.len() != SIZE {
        return;
    }
    put_queue_at(tables, which.place(), q);
}

// All tops become those of these stacklets.
pub fn put_stacklets(tables: &mut [u8], s: Stacklets)
    ensures { Becomes tables.old tables.new (set_tops (tops_of s)) }
{
    if tables.len() != SIZE {
        return;
    }
    tables[TOPS..FREE_THREADS].copy_from_slice(&s.tops);
}

// A stacklet's top.
pub fn top_at(tables: &[u8], x: u8) -> u8
    ensures { Reads tables.now result (λ s. top_at s.store.tops (x % 16)) 0 }
{
    if tables.len() != SIZE {
        return 0;
    }
    read_top(&tables[TOPS..FREE_THREADS], x)
}

// A stacklet's top becomes another.
pub fn put_top(tables: &mut [u8], x: u8, top: u8)
    ensures { Becomes tables.old tables.new (set_top (x % 16) top) }
{
    if tables.len() != SIZE {
        return;
    }
    write_top(&mut tables[TOPS..FREE_THREADS], x, top);
}
