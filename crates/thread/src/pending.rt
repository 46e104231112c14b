// Pending slots, as a mask with one bit for each. The mask is a bare u16, as it is stored: a struct of one field would only be opened wherever
// records, rows and bytes speak of it.
ghost use Rattle.std.specs.Prelude.{◌≡◌, ◌<◌, ◌≤◌};
ghost use Rattle.thread.specs.Thread.{is_pending, with_pending};
ghost use Rattle.thread.specs.Effect.{run, any_pending};

// Is slot k pending? Mostly none is, which one test tells.
#[tactic(auto, unfolding(crate::specs::Thread::is_pending), using(crate::proofs::CodePending::none_empty, crate::proofs::CodePending::none_high))]
pub fn is_pending(mask: u16, k: u8) -> bool
    ensures { result ≡ is_pending mask k }
{
    if mask == 0 {
        return false;
    }
    pending_at(mask, u16::from(k))
}

// The same of any number: no slot from 16 on is. In one condition with the test of the mask, the bit is read before that test, and a run takes a
// fifth more instructions.
#[tactic(auto, unfolding(crate::specs::Thread::is_pending), using(crate::proofs::CodePending::none_high))]
fn pending_at(mask: u16, k: u16) -> bool
    ensures { result ≡ is_pending mask k }
{
    if k < 16 {
        return (mask >> k) % 2 == 1;
    }
    false
}

// Slot d becomes pending. There is no slot from 16 on, so none becomes pending then.
#[tactic(auto, unfolding(crate::specs::Thread::with_pending), using(crate::proofs::CodePending::one_bit))]
pub fn with_pending(mask: u16, d: u8) -> u16
    ensures { (d < 16 → result ≡ with_pending mask d) × (16 ≤ d → result ≡ mask) }
{
    if 16 <= d { mask } else { mask | (1 << d) }
}

// Is one of n slots from a on pending?
#[tactic(auto, using(crate::proofs::CodePending::run_high, crate::proofs::CodePending::run_long, crate::proofs::CodePending::run_part, crate::proofs::CodePending::bit_some))]
pub fn any_pending(mask: u16, a: u8, n: u8) -> bool
    ensures { result ≡ any_pending (is_pending mask) (run a n) }
{
    if 16 <= a {
        return false;
    }
    let part = mask >> a;
    if 16 <= n {
        part != 0
    } else {
        part % (1 << n) != 0
    }
}

// Is any slot pending?
#[tactic(auto, using(crate::proofs::CodePending::some_pending))]
pub fn some_pending(mask: u16) -> bool
    ensures { result ≡ any_pending (is_pending mask) (run 0 16) }
{
    mask != 0
}
