// A thread returns a value and ends.
ghost use Rattle.std.specs.Prelude.{◌≡◌, ℕ, ◌<◌, List, length};
ghost use Rattle.stacklets.specs.Frames.{wiped};
ghost use Rattle.rules.specs.State.{job_of};
ghost use Rattle.rules.specs.Return.{retired, return_of};
ghost use Rattle.tables.specs.Meaning.{size, meaning};
ghost use Rattle.tables.specs.Change.{Becomes};
ghost use Rattle.entries.specs.Given.{Seated, Returning, record_in, turn_in, gives_back, wakes_up};

use crate::Seat;
use image::routines::slots_of;
use stacklets::set_slot;
use statuses::{core_after, does_wake, is_lowest, status_after};
use tables::frames::pop_frame;
use tables::lines::{Line, put_queue, queue_of};
use tables::marks::{charge, finish, put_core};
use tables::records::{put_thread, thread_at};
use thread::Thread;

// A stacklet whose lowest frame has gone is given back.
fn give_back(tables: &mut [u8], base: u16)
    requires { (length tables.old ≡ size) × (base < 1024) }
    ensures { Becomes tables.old tables.new (gives_back base) }
{
    if !is_lowest(base) {
        return;
    }
    put_queue(
        tables,
        Line::FreeStacklets,
        queue_of(tables, Line::FreeStacklets).enqueue((base / 64) as u8),
    );
}

// A parent p, whose record is q, joins the ready queue if the end of a child wakes it.
fn wake(tables: &mut [u8], connected: bool, q: Thread, p: u8)
    requires { length tables.old ≡ size }
    ensures { Becomes tables.old tables.new (wakes_up connected q p) }
{
    if does_wake(connected, q) {
        put_queue(
            tables,
            Line::Ready,
            queue_of(tables, Line::Ready).enqueue(p),
        );
    }
}

// The frame of a seat's thread, of so many words, its number and record are freed, and a weight is charged.
fn free_thread(tables: &mut [u8], words: &mut [u32], at: Seat, slots: u8)
    requires { Seated tables.old at.core at.thread at.weight }
    ensures tables { (next offset : ℕ) → Becomes tables.old tables.new (retired (turn_in tables.old at.core at.thread at.weight next offset)) }
    ensures words { words.new ≡ wiped words.old (record_in tables.old at.thread).origin.base slots }
{
    let th = thread_at(tables, at.thread);
    let base = th.origin.base;
    charge(tables, at.weight);
    pop_frame(tables, words, base, slots);
    give_back(tables, base);
    put_queue(
        tables,
        Line::FreeThreads,
        queue_of(tables, Line::FreeThreads).enqueue(at.thread),
    );
    put_thread(tables, at.thread, Thread::blank());
}

// A seat's thread returns v: its frame, number and record are freed, and v goes to its parent, or is the result. The parent's record is read
// once the child's is freed: what is read earlier would be held while the frame's words are cleared.
pub fn return_value(tables: &mut [u8], words: &mut [u32], at: Seat, v: u32, image: &[u8])
    requires { Returning tables.old at.core at.thread at.weight }
    ensures { (starts parameters memory : List ℕ) (allowance next offset : ℕ) → meaning tables.new words.new memory ≡ return_of (job_of image.now starts parameters allowance) (meaning tables.old words.old memory) (turn_in tables.old at.core at.thread at.weight next offset) v }
{
    let th = thread_at(tables, at.thread);
    let p = th.origin.parent;
    let connected = th.connected;
    free_thread(tables, words, at, slots_of(image, th.origin.routine));
    if th.is_root() {
        put_core(tables, at.core, 32);
        finish(tables, v);
        return;
    }
    let q = thread_at(tables, p);
    set_slot(words, q.origin.base, th.origin.result, v);
    put_thread(tables, p, q.without_child(status_after(connected, q)));
    wake(tables, connected, q, p);
    put_core(tables, at.core, core_after(connected, p));
}
