// A thread's window on memory: which addresses it may load and store, the part that a fork cuts off for the child, the words that it shares for
// reading, and what a join gives back.
#![tactic(auto)]

ghost use Rattle.std.specs.Prelude.{◌≡◌};
ghost use Rattle.window.specs.Rights.{root_window, no_window, is_from, is_between, span_from, span_to, rejoined};
ghost use Rattle.window.specs.Numbers.{LoadAnswer, StoreAnswer, CutAnswer, ShareAnswer};

// Addresses from lo up to but not including hi. Those below the mark are cut off, those from the ceiling on are shared: loaded and not stored.
// Addresses from `from` up to but not including `to` are what an ancestor shared before the fork.
#[derive(Clone, Copy)]
pub struct Window {
    pub lo: u16,
    pub mark: u16,
    pub ceiling: u16,
    pub hi: u16,
    pub from: u16,
    pub to: u16,
}

// What a cut gives: the child's window and what is left of the parent's.
#[derive(Clone, Copy)]
pub struct Cut {
    pub child: Window,
    pub rest: Window,
}

// Is an address one of those from low up to but not including end?
fn is_from(low: u16, end: u16, address: u32) -> bool
    ensures { result ≡ is_from low end address }
{
    (u32::from(low)..u32::from(end)).contains(&address)
}

impl Window {
    // The root's window: all memory words.
    pub fn root() -> Window
        ensures { result ≡ root_window }
    {
        Window {
            lo: 32,
            mark: 32,
            ceiling: 1024,
            hi: 1024,
            from: 1024,
            to: 1024,
        }
    }

    // The window of a free record, without a word.
    pub fn none() -> Window
        ensures { result ≡ no_window }
    {
        Window {
            lo: 0,
            mark: 0,
            ceiling: 0,
            hi: 0,
            from: 0,
            to: 0,
        }
    }

    // Parameter words may always be loaded.
    #[tactic(auto, unfolding(crate::specs::Rights::may_load), using(crate::proofs::Numbers::loaded))]
    pub fn may_load(self, address: u32) -> bool
        ensures { LoadAnswer self address result }
    {
        address < 32 || is_from(self.mark, self.hi, address) || is_from(self.from, self.to, address)
    }

    // A parameter word is never stored, whatever the mark.
    #[tactic(auto, unfolding(crate::specs::Rights::may_store), using(crate::proofs::Numbers::stored))]
    pub fn may_store(self, address: u32) -> bool
        ensures { StoreAnswer self address result }
    {
        32 <= address && is_from(self.mark, self.ceiling, address)
    }

    // The words that a child forked now may read besides its own: the first, and their end.
    fn span(self) -> (u16, u16)
        ensures { result ≡ (span_from self, span_to self) }
    {
        if self.ceiling < self.hi {
            (self.ceiling, self.hi)
        } else {
            (self.from, self.to)
        }
    }

    // Is a word between the mark and the ceiling, both included?
    fn is_between(self, word: u32) -> bool
        ensures { result ≡ is_between self word }
    {
        u32::from(self.mark) <= word && word <= u32::from(self.ceiling)
    }

    // A cut at e, between the mark and the ceiling.
    #[tactic(auto, unfolding(crate::specs::Rights::cut_at), using(crate::proofs::Numbers::cut_as))]
    pub fn cut(self, e: u32) -> Option<Cut>
        ensures { CutAnswer self e result }
    {
        if !self.is_between(e) {
            return None;
        }
        let mark = self.mark;
        let end = e as u16;
        let (from, to) = self.span();
        Some(Cut {
            child: Window {
                lo: mark,
                mark,
                ceiling: end,
                hi: end,
                from,
                to,
            },
            rest: Window { mark: end, ..self },
        })
    }

    // The words from s up to hi are shared, where s is between the mark and the ceiling: the window with its new ceiling.
    #[tactic(auto, unfolding(crate::specs::Rights::share_at), using(crate::proofs::Numbers::share_as))]
    pub fn share(self, s: u32) -> Option<Window>
        ensures { ShareAnswer self s result }
    {
        if !self.is_between(s) {
            return None;
        }
        let ceiling = s as u16;
        Some(Window { ceiling, ..self })
    }

    // The window as it was before its cuts and shares.
    pub fn rejoin(self) -> Window
        ensures { result ≡ rejoined self }
    {
        Window {
            mark: self.lo,
            ceiling: self.hi,
            ..self
        }
    }
}
