// What a command does to its own thread: one function for each kind of command, its tests in document 01's order.
#![tactic(auto, unfolding(thread::specs::Effect::unless_pending, thread::specs::Effect::any_pending, thread::specs::Effect::provided, thread::specs::Effect::forking, thread::specs::Effect::effect_of))]

ghost use Rattle.std.specs.Prelude.{◌≡◌, [], ◌∷◌, if◌then◌else◌, nat_eq};
ghost use Rattle.image.specs.Layout.{arguments_of};
ghost use Rattle.thread.specs.declared.Fault.TheVariants.{SlotPending, AddressNotAllowed, ReturnPending, ShareOutOfRange};
ghost use Rattle.thread.specs.declared.Effect.TheVariants.{Sets, Loads, Stores, Goes, Continues, Lforks, Forks, Returns, Shares};
ghost use Rattle.thread.specs.Effect.{run, unless_pending, provided, forking, effect_of};
ghost use Rattle.stacklets.specs.Frames.{slot_of};
ghost use Rattle.thread.specs.Thread.{is_pending};
ghost use Rattle.thread.specs.View.{context_of};
ghost use Rattle.effects.specs.View.{seen_by};

use command::Command;
use image::routines::arguments_of;
use thread::pending::{any_pending, is_pending, some_pending};
use thread::{Effect, Fault, Thread};
use window::Window;

// What a command may look at of its thread: all words of the stacklets, where among them its frame's begin, its pending slots and its window.
#[derive(Clone, Copy)]
pub struct View<'a> {
    pub words: &'a [u32],
    pub base: u16,
    pub pending: u16,
    pub window: Window,
}

impl<'a> View<'a> {
    // A thread's next command's view.
    pub fn of(words: &'a [u32], h: Thread) -> View<'a>
        ensures { seen_by result ≡ context_of (slot_of words.now h.origin.base) (is_pending h.family.pending) h.family.window }
    {
        View {
            words,
            base: h.origin.base,
            pending: h.family.pending,
            window: h.family.window,
        }
    }

    // A slot's value.
    fn slot(self, k: u8) -> u32
        ensures { result ≡ (seen_by self.entry).slot k }
    {
        stacklets::slot(self.words, self.base, k)
    }

    fn is_pending(self, k: u8) -> bool
        ensures { result ≡ (seen_by self.entry).pending k }
    {
        is_pending(self.pending, k)
    }

    // 01: slot d becomes a constant.
    fn set(self, d: u8, value: u16) -> Effect
        ensures { result ≡ unless_pending SlotPending (seen_by self.entry).pending (d ∷ []) (Sets d value) }
    {
        if self.is_pending(d) {
            return Effect::Faults(Fault::SlotPending);
        }
        Effect::Sets(d, u32::from(value))
    }

    // 02 and 03: slot d becomes a value that is computed from those of slots a and b.
    fn compute(self, d: u8, a: u8, b: u8, value: u32) -> Effect
        ensures { result ≡ unless_pending SlotPending (seen_by self.entry).pending (d ∷ a ∷ b ∷ []) (Sets d value) }
    {
        if self.is_pending(d) || self.is_pending(a) || self.is_pending(b) {
            return Effect::Faults(Fault::SlotPending);
        }
        Effect::Sets(d, value)
    }

    // 04: slot d becomes the word at an address, which slot a holds.
    fn load(self, d: u8, a: u8) -> Effect
        ensures { result ≡ unless_pending SlotPending (seen_by self.entry).pending (d ∷ a ∷ []) (provided ((seen_by self.entry).may_load ((seen_by self.entry).slot a)) AddressNotAllowed (Loads d ((seen_by self.entry).slot a))) }
    {
        if self.is_pending(d) || self.is_pending(a) {
            return Effect::Faults(Fault::SlotPending);
        }
        let address = self.slot(a);
        if !self.window.may_load(address) {
            return Effect::Faults(Fault::AddressNotAllowed);
        }
        Effect::Loads(d, address)
    }

    // 05: the word at an address, which slot a holds, becomes slot b's value.
    fn store(self, a: u8, b: u8) -> Effect
        ensures { result ≡ unless_pending SlotPending (seen_by self.entry).pending (a ∷ b ∷ []) (provided ((seen_by self.entry).may_store ((seen_by self.entry).slot a)) AddressNotAllowed (Stores ((seen_by self.entry).slot a) ((seen_by self.entry).slot b))) }
    {
        if self.is_pending(a) || self.is_pending(b) {
            return Effect::Faults(Fault::SlotPending);
        }
        let address = self.slot(a);
        if !self.window.may_store(address) {
            return Effect::Faults(Fault::AddressNotAllowed);
        }
        Effect::Stores(address, self.slot(b))
    }

    // 06: to a target if slot a's value is 0.
    fn jump_if_zero(self, a: u8, target: u16) -> Effect
        ensures { result ≡ unless_pending SlotPending (seen_by self.entry).pending (a ∷ []) (if nat_eq ((seen_by self.entry).slot a) 0 then Goes target else Continues) }
    {
        if self.is_pending(a) {
            return Effect::Faults(Fault::SlotPending);
        }
        if self.slot(a) == 0 {
            return Effect::Goes(target);
        }
        Effect::Continues
    }

    // 08 and 09: what the fork does, if slot d, the cut's slot w and the arguments' slots are not pending and the cut is in range.
    fn fork_if_allowed(
        self,
        image: &[u8],
        routine: u8,
        d: u8,
        a: u8,
        w: u8,
        forks: Effect,
    ) -> Effect
        ensures { result ≡ forking (arguments_of image.now) (seen_by self.entry) routine d a w forks }
    {
        if self.is_pending(d) || self.is_pending(w) {
            return Effect::Faults(Fault::SlotPending);
        }
        if any_pending(self.pending, a, arguments_of(image, routine)) {
            return Effect::Faults(Fault::SlotPending);
        }
        if self.window.cut(self.slot(w)).is_none() {
            return Effect::Faults(Fault::CutOutOfRange);
        }
        forks
    }

    // 08: an lfork, its cut in slot w.
    fn lfork(self, image: &[u8], routine: u8, d: u8, a: u8, w: u8) -> Effect
        ensures { result ≡ forking (arguments_of image.now) (seen_by self.entry) routine d a w (Lforks routine d a ((seen_by self.entry).slot w)) }
    {
        let forks = Effect::Lforks(routine, d, a, self.slot(w));
        self.fork_if_allowed(image, routine, d, a, w, forks)
    }

    // 09: a fork, its cut in slot w. A steal asks this of either fork, so that `effect` has one caller and is put in line there.
    pub fn fork(self, image: &[u8], routine: u8, d: u8, a: u8, w: u8) -> Effect
        ensures { result ≡ forking (arguments_of image.now) (seen_by self.entry) routine d a w (Forks routine d a ((seen_by self.entry).slot w)) }
    {
        let forks = Effect::Forks(routine, d, a, self.slot(w));
        self.fork_if_allowed(image, routine, d, a, w, forks)
    }

    // 0D: the thread ends with slot a's value.
    fn give_back(self, a: u8) -> Effect
        ensures { result ≡ unless_pending ReturnPending (seen_by self.entry).pending (run 0 16) (Returns ((seen_by self.entry).slot a)) }
    {
        if some_pending(self.pending) {
            return Effect::Faults(Fault::ReturnPending);
        }
        Effect::Returns(self.slot(a))
    }

    // 0E: the words from slot a's value up to hi are shared for reading.
    fn share(self, a: u8) -> Effect
        ensures { result ≡ unless_pending SlotPending (seen_by self.entry).pending (a ∷ []) (provided ((seen_by self.entry).may_share ((seen_by self.entry).slot a)) ShareOutOfRange (Shares ((seen_by self.entry).slot a))) }
    {
        if self.is_pending(a) {
            return Effect::Faults(Fault::SlotPending);
        }
        let value = self.slot(a);
        if self.window.share(value).is_none() {
            return Effect::Faults(Fault::ShareOutOfRange);
        }
        Effect::Shares(value)
    }

    // The effect of a command on the thread.
    pub fn effect(self, command: Command, image: &[u8]) -> Effect
        ensures { result ≡ effect_of (arguments_of image.now) (seen_by self.entry) command }
    {
        match command {
            Command::Set(d, v) => self.set(d, v),
            Command::Add(d, a, b) => self.compute(d, a, b, self.slot(a).wrapping_add(self.slot(b))),
            Command::Subtract(d, a, b) => self.compute(
                d,
                a,
                b,
                self.slot(a).wrapping_sub(self.slot(b)),
            ),
            Command::Load(d, a) => self.load(d, a),
            Command::Store(a, b) => self.store(a, b),
            Command::JumpIfZero(a, t) => self.jump_if_zero(a, t),
            Command::Jump(t) => Effect::Goes(t),
            Command::Lfork {
                routine,
                result: d,
                arguments: a,
                cut: w,
            } => self.lfork(image, routine, d, a, w),
            Command::Fork {
                routine,
                result: d,
                arguments: a,
                cut: w,
            } => self.fork(image, routine, d, a, w),
            Command::Join => Effect::Joins,
            Command::Suspend => Effect::Suspends,
            Command::Yield => Effect::Yields,
            Command::Return(a) => self.give_back(a),
            Command::Share(a) => self.share(a),
        }
    }
}
