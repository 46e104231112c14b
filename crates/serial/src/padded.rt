// An image with zeros behind it, so that the five bytes of a command are read with no test.
ghost use Rattle.std.specs.Prelude.{◌≡◌, ◌+◌, ◌≤◌, ◌<◌, length};
ghost use Rattle.command.specs.Command.{five_at};
ghost use Rattle.serial.specs.Steps.{Padded};

// An image, then zeros.
pub fn pad(image: &[u8]) -> [u8; 4104]
    requires { length image.now ≤ 4096 }
    ensures { Padded image.now result }
{
    let mut padded = [0u8; 4104];
    padded[..image.len()].copy_from_slice(image);
    padded
}

// The five bytes at a position of a routine's code.
pub fn five_of(padded: &[u8; 4104], code: usize, position: u16) -> [u8; 5]
    requires { code + position < 4096 }
    ensures { result ≡ five_at padded.now (code + position) }
{
    let at = code + (position as usize);
    [
        padded[at],
        padded[at + 1],
        padded[at + 2],
        padded[at + 3],
        padded[at + 4],
    ]
}
