// Number 8, by a table of marks with a cell for each byte of a code: 1 where a command was met, 2 where a target is that none was met at.
ghost use Rattle.std.specs.Prelude.{◌≡◌, ◌+◌, ◌≤◌, ◌<◌, get_or, length};
ghost use Rattle.command.specs.Command.{pair, width_of, decoded_at};
ghost use Rattle.image.specs.Code.{target_good};
ghost use Rattle.image.specs.Marks.{MarksAsked, Met};

// Byte t is asked for; false where it is outside the code.
fn ask(marks: &mut [u8], t: usize) -> bool
    ensures { MarksAsked (λ start. start t) marks.old marks.new result }
{
    if marks.len() <= t {
        return false;
    }
    if marks[t] != 1 {
        marks[t] = 2;
    }
    true
}

// The value of the two bytes at a position.
fn target_at(code: &[u8], at: usize) -> usize
    requires { at + 1 < length code.now }
    ensures { result ≡ pair (get_or code.now at 0) (get_or code.now (at + 1) 0) }
{
    usize::from(u16::from_le_bytes([code[at], code[at + 1]]))
}

// The target of the whole command at a position, if it has one, is asked for.
pub fn ask_target(code: &[u8], at: usize, marks: &mut [u8]) -> bool
    requires { (1 ≤ width_of (get_or code.now at 0)) × (at + width_of (get_or code.now at 0) ≤ length code.now) }
    ensures { MarksAsked (λ start. target_good start (decoded_at code.now at)) marks.old marks.new result }
{
    match code[at] {
        6 => ask(marks, target_at(code, at + 2)),
        7 => ask(marks, target_at(code, at + 1)),
        _ => true,
    }
}

// Was a command met wherever a byte was asked for? It goes on to the end whatever it finds, so that many cells are looked at at once.
#[tactic(auto, using(crate::proofs::Asking::left_here, crate::proofs::Asking::none_more))]
pub fn all_met(marks: &[u8]) -> bool
    ensures { Met marks.now result }
{
    let mut met = true;
    for mark in marks {
        if *mark == 2 {
            met = false;
        }
    }
    met
}
