// The machine's tables and the stacklets' words at Start.
#![tactic(auto)]

ghost use Rattle.std.specs.Prelude.{◌≡◌, length, replicate};
ghost use Rattle.tables.specs.Change.{Becomes};
ghost use Rattle.start.specs.Start.{all_free, root_runs, Starts};

use image::routines::slots_of;
use queue::Queue;
use stacklets::Stacklets;
use tables::lines::{Line, put_queue, put_stacklets};
use tables::marks::{clear, put_core, put_count};
use tables::records::put_thread;
use thread::Thread;

// All numbers are free but the root's and its stacklet's.
fn put_numbers(tables: &mut [u8])
    ensures { Becomes tables.old tables.new all_free }
{
    let (_, free_threads) = Queue::ascending(32).dequeue();
    put_queue(tables, Line::FreeThreads, free_threads);
    let (_, free_stacklets) = Queue::ascending(16).dequeue();
    put_queue(tables, Line::FreeStacklets, free_stacklets);
    put_queue(tables, Line::Ready, Queue::new());
}

// The root runs on core 0, and the other cores are idle.
fn put_root(tables: &mut [u8], count: u8)
    ensures { Becomes tables.old tables.new (root_runs count) }
{
    put_thread(tables, 0, Thread::root());
    put_core(tables, 1, 32);
    put_core(tables, 2, 32);
    put_core(tables, 3, 32);
    put_count(tables, count);
}

// Thread 0 runs routine 0 on core 0, its frame on stacklet 0; other cores are idle. Tables of another size stay as they are.
pub fn start(image: &[u8], count: u8, arguments: &[u32], tables: &mut [u8], words: &mut [u32])
    ensures { Starts image.now arguments.now count tables.old tables.new words.old words.new }
{
    clear(tables);
    words.fill(0);
    let wide = slots_of(image, 0);
    put_stacklets(
        tables,
        Stacklets::new().push_arguments(words, 0, wide, arguments),
    );
    put_numbers(tables);
    put_root(tables, count);
}
