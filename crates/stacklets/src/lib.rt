// The stacklet store: 16 stacklets of 64 words. Frames are pushed above a stacklet's top and popped off it, and their slots are read and
// written. The 1,024 words are lent by the caller; the tops are a small struct by value. A frame is known by its base, its first word's
// number among all words, so that its stacklet is base / 64.
#![tactic(auto)]

ghost use Rattle.std.specs.Prelude.{◌≡◌, ◌%◌, if◌then◌else◌, None, Some, get_or, set, replicate};
ghost use Rattle.stacklets.specs.Tops.{tops_of, stacklets_of, top_at, fits_on, is_topmost, base_on, pushed_tops, popped_tops};
ghost use Rattle.stacklets.specs.Frames.{slot_of, with_slot, arguments_at, framed, wiped, pushed_words};

// How many words of each stacklet its frames take. A stacklet with top 0 has no frame. The tops are public, since any of them may be: the
// machine's tables hold them as bytes.
#[derive(Clone, Copy)]
pub struct Stacklets {
    pub tops: [u8; 16],
}

impl Stacklets {
    // No frame at all.
    #[tactic(auto, unfolding(crate::specs::Tops::tops_of))]
    pub fn new() -> Stacklets
        ensures { tops_of result ≡ replicate 16 0 }
    {
        Stacklets { tops: [0u8; 16] }
    }

    // A stacklet's top; 0 where there is no such stacklet.
    pub fn top(self, stacklet: u8) -> u8
        ensures { result ≡ top_at (tops_of self) stacklet }
    {
        self.top_of(stacklet as usize)
    }

    // The same of any number.
    #[tactic(auto, unfolding(crate::specs::Tops::tops_of))]
    fn top_of(self, x: usize) -> u8
        ensures { result ≡ top_at (tops_of self) x }
    {
        self.tops.get(x).copied().unwrap_or(0)
    }

    // Where the next frame on a stacklet starts.
    pub fn next_base(self, stacklet: u8) -> u16
        ensures { result ≡ base_on (tops_of self) stacklet }
    {
        64 * u16::from(stacklet) + u16::from(self.top(stacklet))
    }

    // Whether a frame of so many words fits above a stacklet's top.
    #[tactic(auto, unfolding(crate::specs::Tops::fits_on))]
    pub fn fits(self, stacklet: u8, size: u8) -> bool
        ensures { result ≡ fits_on (tops_of self) stacklet size }
    {
        stacklet < 16 && u16::from(self.top(stacklet)) + u16::from(size) <= 64
    }

    // Whether a frame is the highest on its stacklet.
    pub fn is_topmost(self, base: u16, size: u8) -> bool
        ensures { result ≡ is_topmost (tops_of self) base size }
    {
        base % 64 + u16::from(size) == u16::from(self.top_of((base / 64) as usize))
    }

    // Where a new frame goes on a stacklet, and the stacklets with it; nothing where it does not fit.
    #[tactic(auto, unfolding(crate::specs::Tops::tops_of, crate::specs::Tops::fits_on, crate::specs::Tops::pushed_tops))]
    fn grown(mut self, stacklet: u8, size: u8) -> Option<(u16, Stacklets)>
        ensures { result ≡ (if fits_on (tops_of self) stacklet size then Some (base_on (tops_of self) stacklet, stacklets_of (pushed_tops (tops_of self) stacklet size)) else None) }
    {
        if !self.fits(stacklet, size) {
            return None;
        }
        let base = self.next_base(stacklet);
        self.tops[stacklet as usize] += size;
        Some((base, self))
    }

    // A new frame above a stacklet's top, its arguments the words from `from` on, as they stand before the push. Refused, with nothing
    // changed, where it does not fit.
    #[tactic(auto, unfolding(crate::specs::Tops::tops_of, crate::specs::Tops::fits_on, crate::specs::Tops::pushed_tops, crate::specs::Frames::pushed_words))]
    pub fn push(self, words: &mut [u32], stacklet: u8, size: u8, from: u16, given: u8) -> Stacklets
        ensures tops { tops_of result ≡ pushed_tops (tops_of self) stacklet size }
        ensures words { words.new ≡ pushed_words (tops_of self) words.old stacklet size (arguments_at words.old from given) }
    {
        let Some((base, grown)) = self.grown(stacklet, size) else {
            return self;
        };
        lay_frame(words, base, size, from, given);
        grown
    }

    // A new frame above a stacklet's top, with these arguments in its first slots. Refused, with nothing changed, where it does not fit.
    #[tactic(auto, unfolding(crate::specs::Tops::tops_of, crate::specs::Tops::fits_on, crate::specs::Tops::pushed_tops, crate::specs::Frames::pushed_words))]
    pub fn push_arguments(
        self,
        words: &mut [u32],
        stacklet: u8,
        size: u8,
        arguments: &[u32],
    ) -> Stacklets
        ensures tops { tops_of result ≡ pushed_tops (tops_of self) stacklet size }
        ensures words { words.new ≡ pushed_words (tops_of self) words.old stacklet size arguments.now }
    {
        let Some((base, grown)) = self.grown(stacklet, size) else {
            return self;
        };
        lay_arguments(words, base, size, arguments);
        grown
    }

    // The frame at a base, of so many words, is given back: its words are cleared, and it goes with all above it.
    #[tactic(auto, unfolding(crate::specs::Tops::tops_of))]
    pub fn pop(mut self, words: &mut [u32], base: u16, size: u8) -> Stacklets
        ensures tops { tops_of result ≡ popped_tops (tops_of self) base }
        ensures words { words.new ≡ wiped words.old base size }
    {
        wipe_frame(words, base, size);
        let stacklet = (base / 64) as usize;
        if stacklet < self.tops.len() {
            self.tops[stacklet] = (base % 64) as u8;
        }
        self
    }
}

// A stacklet's top, among tops that stand in a part of other numbers; stacklets are taken by their remainder.
#[tactic(auto, unfolding(crate::specs::Tops::tops_of))]
pub fn read_top(tops: &[u8], stacklet: u8) -> u8
    ensures { result ≡ top_at (tops_of (stacklets_of tops.now)) (stacklet % 16) }
{
    tops.get((stacklet % 16) as usize).copied().unwrap_or(0)
}

// It becomes another, where there is one.
#[tactic(auto, unfolding(crate::specs::Tops::tops_of))]
pub fn write_top(tops: &mut [u8], stacklet: u8, top: u8)
    ensures { tops_of (stacklets_of tops.new) ≡ set (tops_of (stacklets_of tops.old)) (stacklet % 16) top }
{
    let x = (stacklet % 16) as usize;
    if x < tops.len() {
        tops[x] = top;
    }
}

// A new frame of `size` words at a base, its arguments the words from `from` on, as they stand before: each is read before it is written over,
// since the copy starts at the end where the two runs can overlap only behind it. Kept: `copy_within` and `fill` take 16 instructions more for
// a frame of four words.
pub fn lay_frame(words: &mut [u32], base: u16, size: u8, from: u16, given: u8)
    ensures { words.new ≡ framed words.old base size (arguments_at words.old from given) }
{
    if from < base {
        for i in (0..size).rev() {
            let value = argument(words, from, given, i);
            set_slot(words, base, i, value);
        }
    } else {
        for i in 0..size {
            let value = argument(words, from, given, i);
            set_slot(words, base, i, value);
        }
    }
}

// Word i of a new frame: an argument, or 0.
fn argument(words: &[u32], from: u16, given: u8, i: u8) -> u32
    ensures { result ≡ get_or (arguments_at words.now from given) i 0 }
{
    if i < given { slot(words, from, i) } else { 0 }
}

// A new frame of `size` words at a base: these arguments, then zeros.
#[tactic(auto, unfolding(crate::specs::Frames::framed), using(crate::proofs::Laying::up_more))]
fn lay_arguments(words: &mut [u32], base: u16, size: u8, arguments: &[u32])
    ensures { words.new ≡ framed words.old base size arguments.now }
{
    for i in 0..size {
        let value = arguments.get(i as usize).copied().unwrap_or(0);
        set_slot(words, base, i, value);
    }
}

// The words of the frame at a base are cleared, as far as there are words. Kept: `fill` takes 14 instructions more for a frame of four words.
pub fn wipe_frame(words: &mut [u32], base: u16, size: u8)
    ensures { words.new ≡ wiped words.old base size }
{
    let start = base as usize;
    let end = (start + size as usize).min(words.len());
    for i in start..end {
        words[i] = 0;
    }
}

// A slot of a frame: the word so many behind its base, 0 where there is none.
pub fn slot(words: &[u32], base: u16, k: u8) -> u32
    ensures { result ≡ slot_of words.now base k }
{
    words.get(base as usize + k as usize).copied().unwrap_or(0)
}

// A slot of a frame becomes a value, where there is such a word. Kept, as in `write_top` and `pop`: what a write through a slice's `get_mut` leaves
// is promised nowhere, so no proof closed.
pub fn set_slot(words: &mut [u32], base: u16, k: u8, value: u32)
    ensures { words.new ≡ with_slot words.old base k value }
{
    let at = base as usize + k as usize;
    if at < words.len() {
        words[at] = value;
    }
}
