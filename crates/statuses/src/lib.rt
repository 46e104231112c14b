// What a fork, a return and a join make of the threads that they concern, by the rules: small tests, with no table at hand.
#![tactic(auto)]

ghost use Rattle.std.specs.Prelude.{cond, ◌&&◌, ◌||◌, ◌≡◌, ◌%◌, eqb, ltb};
ghost use Rattle.thread.specs.Thread.{none};
ghost use Rattle.rules.specs.Fork.{child_status, parent_status, is_connected};
ghost use Rattle.rules.specs.Return.{wakes, status_after};

use rules::ForkKind;
use thread::{Status, Thread};

// What an idle core has in place of a thread.
const NONE: u8 = 32;

// A fork's child runs, or is ready.
pub fn child_status(kind: ForkKind) -> Status
    ensures { result ≡ child_status kind }
{
    match kind {
        ForkKind::Called | ForkKind::Stolen => Status::Running,
        ForkKind::Queued => Status::Ready,
    }
}

// Its parent lends its core to a called child, stays lent where its seed is stolen, and runs on beside a queued child.
pub fn parent_status(kind: ForkKind) -> Status
    ensures { result ≡ parent_status kind }
{
    match kind {
        ForkKind::Called | ForkKind::Stolen => Status::Lent,
        ForkKind::Queued => Status::Running,
    }
}

// Only a called child gives its core back to its parent.
pub fn is_connected(kind: ForkKind) -> bool
    ensures { result ≡ is_connected kind }
{
    match kind {
        ForkKind::Called => true,
        ForkKind::Queued | ForkKind::Stolen => false,
    }
}

// Does a parent, whose record is q, become ready when a child of its ends?
#[tactic(auto, unfolding(rules::specs::Return::wakes))]
pub fn does_wake(connected: bool, q: Thread) -> bool
    ensures { result ≡ wakes connected q }
{
    !connected && q.status == Status::Waiting && q.family.children == 1
}

// A parent's status, whose record was q, once a child of its has ended.
#[tactic(auto, unfolding(rules::specs::Return::status_after))]
pub fn status_after(connected: bool, q: Thread) -> Status
    ensures { result ≡ status_after connected q }
{
    if connected {
        Status::Running
    } else if does_wake(connected, q) {
        Status::Ready
    } else {
        q.status
    }
}

// The number on a core once its thread has ended: the parent of a connected one, or none.
pub fn core_after(connected: bool, p: u8) -> u8
    ensures { result ≡ cond connected p none }
{
    if connected { p } else { NONE }
}

// A stacklet is free once the frame at its first word has gone.
pub fn is_lowest(base: u16) -> bool
    ensures { result ≡ eqb (base % 64) 0 }
{
    base % 64 == 0
}

// Is this a join of a thread whose children have not all ended?
pub fn must_wait(byte: u8, children: u8) -> bool
    ensures { result ≡ (eqb byte 10 && ltb 0 children) }
{
    byte == 10 && 0 < children
}

// Is this the first byte of an 08 or 09?
pub fn is_fork(byte: u8) -> bool
    ensures { result ≡ (eqb byte 8 || eqb byte 9) }
{
    byte == 8 || byte == 9
}

// Is a weight more than what is left of the allowance?
pub fn falls_short(left: u32, weight: u8) -> bool
    ensures { result ≡ ltb left weight }
{
    left < u32::from(weight)
}
