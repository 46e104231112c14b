// A fork: 08 and 09 by a step, and either as a seed by a steal.
ghost use Rattle.std.specs.Prelude.{◌≡◌, ℕ, ◌/◌, ◌<◌, ◌&&◌, List, length, if◌then◌else◌, None, Some};
ghost use Rattle.queue.specs.Contents.{front_of};
ghost use Rattle.stacklets.specs.Tops.{is_topmost, fits_on};
ghost use Rattle.rules.specs.State.{job_of};
ghost use Rattle.rules.specs.Denial.{log_of};
ghost use Rattle.rules.specs.Fork.{asked, is_connected, child_goes, fork_of};
ghost use Rattle.tables.specs.Meaning.{size, meaning};
ghost use Rattle.tables.specs.Change.{Reads, Becomes};
ghost use Rattle.entries.specs.Given.{Cutting, Forking, turn_in, both_records, left_by, hands_out_number};
ghost use Rattle.dispatch.specs.Orderly.{after};

use crate::Seat;
use image::routines::{arguments_of, slots_of};
use rules::{Denial, ForkKind};
use statuses::{child_status, is_connected, parent_status};
use tables::frames::{fits, is_topmost, next_base, push_frame};
use tables::lines::{Line, put_queue, queue_of};
use tables::marks::{charge, put_core};
use tables::records::{put_thread, thread_at};
use thread::{Origin, Thread};
use window::Cut;

// Does a new frame of `wide` words go above the parent's, of `slots` words at a base?
fn goes_above(tables: &[u8], kind: ForkKind, base: u16, slots: u8, wide: u8) -> bool
    requires { (length tables.now ≡ size) × (base < 1024) }
    ensures { (words memory : List ℕ) → result ≡ (is_connected kind && (is_topmost (meaning tables.now words memory).store.tops base slots && fits_on (meaning tables.now words memory).store.tops (base / 64) wide)) }
{
    is_connected(kind) && is_topmost(tables, base, slots) && fits(tables, (base / 64) as u8, wide)
}

// The child takes its place: on the core, or in the ready queue.
fn place_child(tables: &mut [u8], kind: ForkKind, c: u8, n: u8)
    requires { (length tables.old ≡ size) × (c < 4) }
    ensures { Becomes tables.old tables.new (child_goes kind c n) }
{
    match kind {
        ForkKind::Called => put_core(tables, c, n),
        ForkKind::Queued => put_queue(
            tables,
            Line::Ready,
            queue_of(tables, Line::Ready).enqueue(n),
        ),
        ForkKind::Stolen => put_core(tables, c, n),
    }
}

// The stacklet of a new frame: that of its parent's frame, at a base, where it goes above it; or else the first free one, which is handed out.
// Only a frame that needs a free one loads their queue.
fn find_place(tables: &mut [u8], above: bool, base: u16) -> Option<u8>
    requires { base < 1024 }
    ensures left { Becomes tables.old tables.new (left_by above) }
    ensures spot { Reads tables.old result (λ s. (if above then Some (base / 64) else front_of s.queues.free_stacklets)) (if above then Some (base / 64) else None) }
    ensures none { result ≡ None → Becomes tables.old tables.new (λ s. s) }
{
    if above {
        return Some((base / 64) as u8);
    }
    let (free, rest) = queue_of(tables, Line::FreeStacklets).dequeue();
    put_queue(tables, Line::FreeStacklets, rest);
    free
}

// The first free thread number is handed out: once a stacklet is found, since a fork that is refused changes nothing.
fn hand_out_number(tables: &mut [u8])
    ensures { Becomes tables.old tables.new hands_out_number }
{
    let (_, rest) = queue_of(tables, Line::FreeThreads).dequeue();
    put_queue(tables, Line::FreeThreads, rest);
}

// Both records of a fork: thread t's, which was th, and its child's, thread n with its frame at a base. The window is cut in two.
fn put_records(
    tables: &mut [u8],
    kind: ForkKind,
    t: u8,
    n: u8,
    th: Thread,
    next: u16,
    r: u8,
    d: u8,
    e: u32,
    base: u16,
)
    requires { Cutting th t n d e }
    ensures { Becomes tables.old tables.new (both_records kind t n th next (asked r d 0 e) base) }
{
    let Some(Cut { child, rest }) = th.family.window.cut(e) else {
        return;
    };
    let parent = th.behind_fork(parent_status(kind), next, d, rest);
    put_thread(tables, t, parent);
    let status = child_status(kind);
    let connected = is_connected(kind);
    let origin = Origin {
        routine: r,
        parent: t,
        result: d,
        base,
    };
    put_thread(tables, n, Thread::new(origin, status, connected, child));
}

// A seat's thread forks routine r: its value to slot d, arguments from slot a on, cut e; behind the command is `next`. It tells
// why the fork is refused.
pub fn fork(
    tables: &mut [u8],
    words: &mut [u32],
    kind: ForkKind,
    at: Seat,
    next: u16,
    image: &[u8],
    r: u8,
    d: u8,
    a: u8,
    e: u32,
) -> Result<(), Denial>
    requires { Forking tables.old at.core at.thread at.weight d e }
    ensures { (starts parameters memory : List ℕ) (allowance offset : ℕ) → after (log_of result) tables.new words.new memory ≡ fork_of (job_of image.now starts parameters allowance) (meaning tables.old words.old memory) kind (turn_in tables.old at.core at.thread at.weight next offset) (asked r d a e) }
{
    let Some(n) = queue_of(tables, Line::FreeThreads).dequeue().0 else {
        return Err(Denial::NoThread);
    };
    let th = thread_at(tables, at.thread);
    let base = th.origin.base;
    let wide = slots_of(image, r);
    let above = goes_above(tables, kind, base, slots_of(image, th.origin.routine), wide);
    let Some(x) = find_place(tables, above, base) else {
        return Err(Denial::NoStacklet);
    };
    hand_out_number(tables);
    let above_it = next_base(tables, x);
    put_records(tables, kind, at.thread, n, th, next, r, d, e, above_it);
    charge(tables, at.weight);
    let given = arguments_of(image, r);
    push_frame(tables, words, x, wide, base + (a as u16), given);
    place_child(tables, kind, at.core, n);
    Ok(())
}
