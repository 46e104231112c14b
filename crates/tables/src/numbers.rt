// Numbers of four bytes at a place.
ghost use Rattle.std.specs.Prelude.{◌≡◌, ◌+◌, ◌*◌, ◌/◌, ◌%◌, ◌<◌, length, slice_set};
ghost use Rattle.tables.specs.Cells.{four_at};

// The number of four bytes at a place.
pub fn four_at(tables: &[u8], at: usize) -> u32
    requires { at + 3 < length tables.now }
    ensures { result ≡ four_at tables.now at }
{
    u32::from_le_bytes([tables[at], tables[at + 1], tables[at + 2], tables[at + 3]])
}

// Four bytes at a place become a number.
pub fn put_four(tables: &mut [u8], at: usize, x: u32)
    requires { at + 3 < length tables.old }
    ensures { tables.new ≡ slice_set (slice_set (slice_set (slice_set tables.old at (x % 65536 % 256)) (at + 1) (x % 65536 / 256)) (at + 2) (x / 65536 % 256)) (at + 2 + 1) (x / 65536 / 256) }
{
    [tables[at], tables[at + 1], tables[at + 2], tables[at + 3]] = x.to_le_bytes();
}
