// A thread leaves its core.
ghost use Rattle.rules.specs.Leave.{leaves};
ghost use Rattle.tables.specs.Change.{Becomes};
ghost use Rattle.entries.specs.Given.{Leaving};

use tables::marks::put_core;
use tables::records::{put_thread, thread_at};
use thread::Status;

// Thread t leaves core c with a status; the parent of a connected one runs there.
pub fn leave(tables: &mut [u8], c: u8, t: u8, status: Status)
    requires { Leaving tables.old c t }
    ensures { Becomes tables.old tables.new (leaves c t status) }
{
    let th = thread_at(tables, t);
    put_thread(tables, t, th.disconnected(status));
    if th.connected {
        let p = th.origin.parent;
        let q = thread_at(tables, p);
        put_thread(tables, p, q.with_status(Status::Running));
        put_core(tables, c, p);
        return;
    }
    put_core(tables, c, 32);
}
