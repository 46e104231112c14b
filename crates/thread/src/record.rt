// A thread's record: how each rule of the machine changes it.
ghost use Rattle.std.specs.Prelude.{◌≡◌, ◌⊎◌, ◌≤◌, ◌<◌};
ghost use Rattle.thread.specs.Thread.{status_number, is_root, blank_thread, root_thread, new_thread, with_status, disconnected, joined_at, shared_at, behind_fork, without_child};

use crate::pending::with_pending;
use crate::{Family, Origin, Status, Thread};
use window::Window;

impl Status {
    // A number for each status, by which it is stored and counted.
    pub fn number(self) -> u8
        ensures { result ≡ status_number self }
    {
        self as u8
    }
}

impl Thread {
    // A free record.
    pub fn blank() -> Thread
        ensures { result ≡ blank_thread }
    {
        let origin = Origin {
            routine: 0,
            parent: 0,
            result: 0,
            base: 0,
        };
        Thread::new(origin, Status::Free, false, Window::none())
    }

    // A thread at its routine's start.
    pub fn new(origin: Origin, status: Status, connected: bool, window: Window) -> Thread
        ensures { result ≡ new_thread origin status connected window }
    {
        let family = Family {
            children: 0,
            window,
            pending: 0,
        };
        Thread {
            origin,
            status,
            connected,
            position: 0,
            family,
        }
    }

    // The root at the start.
    pub fn root() -> Thread
        ensures { result ≡ root_thread }
    {
        let origin = Origin {
            routine: 0,
            parent: 32,
            result: 0,
            base: 0,
        };
        Thread::new(origin, Status::Running, false, Window::root())
    }

    // Does this thread have no parent?
    pub fn is_root(self) -> bool
        ensures { result ≡ is_root self }
    {
        32 <= self.origin.parent
    }

    // The same thread, doing something else.
    pub fn with_status(self, status: Status) -> Thread
        ensures { result ≡ with_status status self }
    {
        Thread { status, ..self }
    }

    // The thread off its core, and unconnected from now on.
    pub fn disconnected(self, status: Status) -> Thread
        ensures { result ≡ disconnected status self }
    {
        Thread {
            status,
            connected: false,
            ..self
        }
    }

    // The thread behind a join, its next command at a position: no slot is pending and its window is whole again.
    pub fn joined_at(self, position: u16) -> Thread
        ensures { result ≡ joined_at position self }
    {
        let family = Family {
            window: self.family.window.rejoin(),
            pending: 0,
            ..self.family
        };
        Thread {
            position,
            family,
            ..self
        }
    }

    // The thread behind a 0E of s, its next command at a position: its ceiling is s. Where s is out of the window's range the record stays as it
    // is.
    pub fn shared_at(self, position: u16, s: u32) -> Thread
        ensures { (self.family.window.mark ≤ s → s ≤ self.family.window.ceiling → result ≡ shared_at position s self) × ((s < self.family.window.mark) ⊎ (self.family.window.ceiling < s) → result ≡ self) }
    {
        let Some(window) = self.family.window.share(s) else {
            return self;
        };
        let family = Family {
            window,
            ..self.family
        };
        Thread {
            position,
            family,
            ..self
        }
    }

    // The parent behind a fork: its next command at a position, one child more, slot d pending, and a window left to it. A record whose children
    // cannot be counted further, or a slot from 16 on, stays as it is.
    pub fn behind_fork(self, status: Status, position: u16, d: u8, window: Window) -> Thread
        ensures { (d < 16 → self.family.children < 255 → result ≡ behind_fork status position d window self) × ((16 ≤ d) ⊎ (255 ≤ self.family.children) → result ≡ self) }
    {
        if 16 <= d || self.family.children == 255 {
            return self;
        }
        let family = Family {
            window,
            pending: with_pending(self.family.pending, d),
            children: self.family.children + 1,
        };
        Thread {
            status,
            position,
            family,
            ..self
        }
    }

    // The parent of a child that has ended.
    pub fn without_child(self, status: Status) -> Thread
        ensures { result ≡ without_child status self }
    {
        let family = Family {
            children: self.family.children.saturating_sub(1),
            ..self.family
        };
        Thread {
            status,
            family,
            ..self
        }
    }
}
