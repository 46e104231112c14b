// Where an open routine stands. Its slots are held apart.
ghost use Rattle.std.specs.Prelude.{◌≡◌, ◌<◌};
ghost use Rattle.window.specs.Rights.{rejoined};
ghost use Rattle.stacklets.specs.Frames.{slot_of};
ghost use Rattle.thread.specs.Thread.{is_pending, with_pending};
ghost use Rattle.thread.specs.View.{context_of};
ghost use Rattle.effects.specs.View.{seen_by};
ghost use Rattle.serial.specs.Steps.{place_at};

use effects::View;
use thread::pending::with_pending;
use window::Window;

// An open routine's place: the position of its next command, one bit for each pending slot, its window, and what is left of the allowance.
#[derive(Clone, Copy)]
pub struct Place {
    pub routine: u8,
    pub position: u16,
    pub pending: u16,
    pub window: Window,
    pub left: u32,
}

impl Place {
    // What the routine's next command may look at, in its own slots.
    pub fn view<'a>(&self, slots: &'a [u32]) -> View<'a>
        ensures { seen_by result ≡ context_of (slot_of slots.now 0) (is_pending self.now.pending) self.now.window }
    {
        View {
            words: slots,
            base: 0,
            pending: self.pending,
            window: self.window,
        }
    }

    // A routine's start.
    pub fn first(routine: u8, window: Window, left: u32) -> Place
        ensures { result ≡ place_at routine 0 0 window left }
    {
        Place {
            routine,
            position: 0,
            pending: 0,
            window,
            left,
        }
    }

    // To a position, with so much left.
    pub fn go_to(&mut self, position: u16, left: u32)
        ensures { self.new ≡ place_at self.old.routine position self.old.pending self.old.window left }
    {
        self.position = position;
        self.left = left;
    }

    // Behind a join: no slot is pending, and the mark is back.
    pub fn pass_join(&mut self, position: u16, left: u32)
        ensures { self.new ≡ place_at self.old.routine position 0 (rejoined self.old.window) left }
    {
        self.go_to(position, left);
        self.pending = 0;
        self.window = self.window.rejoin();
    }

    // Behind a fork, whose result slot d is pending, in the rest of the window.
    pub fn pass_fork(&mut self, position: u16, left: u32, rest: Window, d: u8)
        requires { d < 16 }
        ensures { self.new ≡ place_at self.old.routine position (with_pending self.old.pending d) rest left }
    {
        self.go_to(position, left);
        self.pending = with_pending(self.pending, d);
        self.window = rest;
    }

    // Behind a share, in the window with its new ceiling.
    pub fn pass_share(&mut self, position: u16, left: u32, window: Window)
        ensures { self.new ≡ place_at self.old.routine position self.old.pending window left }
    {
        self.go_to(position, left);
        self.window = window;
    }
}
