// An open routine's slots: its arguments, and a slot written.
ghost use Rattle.std.specs.Prelude.{◌≡◌, ◌≤◌, ◌<◌, length, replicate, set};
ghost use Rattle.serial.specs.Steps.{first_slots};

// Lays a new routine's arguments in its first slots, which are zero.
pub fn lay(slots: &mut [u32; 16], arguments: &[u32])
    requires { (slots.old ≡ replicate 16 0) × (length arguments.now ≤ 16) }
    ensures { slots.new ≡ first_slots arguments.now }
{
    // where there are none, a call that copies nothing would make a fork a tenth slower
    if !arguments.is_empty() {
        slots[..arguments.len()].copy_from_slice(arguments);
    }
}

// Slot d becomes a value.
pub fn put(slots: &mut [u32; 16], d: u8, value: u32)
    requires { d < 16 }
    ensures { slots.new ≡ set slots.old d value }
{
    slots[d as usize] = value;
}
