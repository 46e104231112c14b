// A thread's record as its 24 bytes: how it is read and how it is stored. Where the records stand is the tables' matter. Nothing is asked of the
// caller: another number of bytes is read as a free record and never changed.
#![tactic(auto)]

ghost use Rattle.std.specs.Prelude.{◌≡◌, ◌+◌, ◌*◌, ◌%◌, ◌/◌, length};
ghost use Rattle.std.proofs.lemmas.List.Edits.{sets};
ghost use Rattle.thread.specs.Thread.{blank_thread};
ghost use Rattle.cells.specs.Record.{status_of, record_at, window_cells, cells_of};

use thread::{Family, Origin, Status, Thread};
use window::Window;

// The bytes of a record.
pub const WIDE: usize = 24;

// The status of a number.
#[tactic(auto, unfolding(crate::specs::Record::status_of))]
fn status_of(n: u8) -> Status
    ensures { result ≡ status_of n }
{
    match n {
        0 => Status::Free,
        1 => Status::Running,
        2 => Status::Ready,
        3 => Status::Suspended,
        4 => Status::Waiting,
        _ => Status::Lent,
    }
}

// The record in its cells; of any other number of cells, a free one.
#[tactic(auto, unfolding(crate::specs::Record::record_at))]
pub fn read_record(cells: &[u8]) -> Thread
    ensures { (length cells.now ≡ 24 → result ≡ record_at cells.now 0) × ((length cells.now ≡ 24 → ⊥) → result ≡ blank_thread) }
{
    if cells.len() != WIDE {
        return Thread::blank();
    }
    let window = Window {
        lo: u16::from_le_bytes([cells[10], cells[11]]),
        mark: u16::from_le_bytes([cells[12], cells[13]]),
        ceiling: u16::from_le_bytes([cells[14], cells[15]]),
        hi: u16::from_le_bytes([cells[16], cells[17]]),
        from: u16::from_le_bytes([cells[18], cells[19]]),
        to: u16::from_le_bytes([cells[20], cells[21]]),
    };
    let status = status_of(cells[2]);
    let origin = Origin {
        routine: cells[4],
        parent: cells[5],
        result: cells[6],
        base: u16::from_le_bytes([cells[8], cells[9]]),
    };
    let family = Family {
        children: cells[7],
        window,
        pending: u16::from_le_bytes([cells[22], cells[23]]),
    };
    Thread {
        origin,
        status,
        connected: cells[3] != 0,
        position: u16::from_le_bytes([cells[0], cells[1]]),
        family,
    }
}

// A window goes into its cells of a record.
fn write_window(cells: &mut [u8], window: Window)
    requires { length cells.old ≡ 24 }
    ensures { (cells.new ≡ sets cells.old 10 (window_cells window)) × (length cells.new ≡ 24) }
{
    [cells[10], cells[11]] = window.lo.to_le_bytes();
    [cells[12], cells[13]] = window.mark.to_le_bytes();
    [cells[14], cells[15]] = window.ceiling.to_le_bytes();
    [cells[16], cells[17]] = window.hi.to_le_bytes();
    [cells[18], cells[19]] = window.from.to_le_bytes();
    [cells[20], cells[21]] = window.to.to_le_bytes();
}

// A record goes into its cells; any other number of cells stays as it is.
pub fn write_record(cells: &mut [u8], th: Thread)
    ensures { (length cells.old ≡ 24 → cells.new ≡ sets cells.old 0 (cells_of th)) × ((length cells.old ≡ 24 → ⊥) → cells.new ≡ cells.old) }
{
    if cells.len() != WIDE {
        return;
    }
    [cells[0], cells[1]] = th.position.to_le_bytes();
    cells[2] = th.status.number();
    cells[3] = u8::from(th.connected);
    cells[4] = th.origin.routine;
    cells[5] = th.origin.parent;
    cells[6] = th.origin.result;
    cells[7] = th.family.children;
    [cells[8], cells[9]] = th.origin.base.to_le_bytes();
    write_window(cells, th.family.window);
    [cells[22], cells[23]] = th.family.pending.to_le_bytes();
}
