// Number 6: are a command's slots, argument run and routine in range?
ghost use Rattle.std.specs.Prelude.{◌≡◌};
ghost use Rattle.image.specs.Image.{all_slots, fork_in_range};

use crate::routines::arguments_of;
use command::byte_at;

// Are all these numbers slots of a routine?
pub fn all_slots(slots: u8, operands: &[u8]) -> bool
    ensures { result ≡ all_slots slots operands.now }
{
    operands.iter().all(|slot| *slot < slots)
}

// The routine comes first: only a routine that there is has a row to look up.
pub fn fork_in_range(image: &[u8], slots: u8, routine: u8, res: u8, first: u8, cut: u8) -> bool
    ensures { result ≡ fork_in_range image.now slots routine res first cut }
{
    routine < byte_at(image, 0)
        && all_slots(slots, &[res, cut])
        && u16::from(first) + u16::from(arguments_of(image, routine)) <= u16::from(slots)
}
