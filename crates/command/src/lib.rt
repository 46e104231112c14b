// The fourteen commands of an image: read from bytes, written to bytes, and their weights.
#![tactic(auto)]

ghost use Rattle.std.specs.Prelude.{◌≡◌, ◌≤◌, get_or, length};
ghost use Rattle.command.specs.Command.{ReadAs, decoded, decoded_at, five_at, width_of};
ghost use Rattle.command.specs.Write.{Wrote, put_answer, put_to};
ghost use Rattle.command.specs.Weight.{weight_of, standard_weights};

// A command with its operands, in the order of document 01's table.
#[derive(Clone, Copy, Debug, PartialEq, Eq)]
pub enum Command {
    // 01 d v: slot d becomes v
    Set(u8, u16),
    // 02 d a b: slot d becomes a + b
    Add(u8, u8, u8),
    // 03 d a b: slot d becomes a - b
    Subtract(u8, u8, u8),
    // 04 d a: slot d becomes the word at address a's value
    Load(u8, u8),
    // 05 a b: the word at address a's value becomes b's value
    Store(u8, u8),
    // 06 a t: if slot a is 0 go to t
    JumpIfZero(u8, u16),
    // 07 t: go to t
    Jump(u16),
    // 08 r d a w
    Lfork {
        routine: u8,
        result: u8,
        arguments: u8,
        cut: u8,
    },
    // 09 r d a w
    Fork {
        routine: u8,
        result: u8,
        arguments: u8,
        cut: u8,
    },
    // 0A
    Join,
    // 0B
    Suspend,
    // 0C
    Yield,
    // 0D a: return slot a
    Return(u8),
    // 0E a: words from slot a's value up to hi are shared for reading
    Share(u8),
}

// Why no command is read.
#[derive(Clone, Copy, Debug, PartialEq, Eq)]
pub enum CommandError {
    // 4: unknown byte
    Unknown,
    // 5: operands cut off, or no byte
    CutOff,
}

// 25: the buffer is too short for the command, and nothing was written.
#[derive(Clone, Copy, Debug, PartialEq, Eq)]
pub struct TooShort;

const WIDTHS: [u8; 15] = [0, 4, 4, 4, 3, 3, 4, 3, 5, 5, 1, 1, 1, 2, 2];

const WEIGHTS: [u8; 15] = [0, 1, 1, 1, 2, 2, 1, 1, 6, 12, 1, 3, 3, 1, 1];

// The number of bytes of the command with this first byte; 0 where there is none.
pub fn width(byte: u8) -> u8
    ensures { result ≡ width_of byte }
{
    WIDTHS.get(usize::from(byte)).copied().unwrap_or(0)
}

// The weight of the command with this first byte; 0 where there is none.
pub fn weight(byte: u8) -> u8
    ensures { result ≡ weight_of standard_weights byte }
{
    WEIGHTS.get(usize::from(byte)).copied().unwrap_or(0)
}

// The table of weights, by first byte, for a loop that reads one for each command.
pub fn weights() -> [u8; 15]
    ensures { result ≡ standard_weights }
{
    WEIGHTS
}

// The byte at a position; 0 past the end.
pub fn byte_at(bytes: &[u8], at: usize) -> u8
    ensures { result ≡ get_or bytes.now at 0 }
{
    bytes.get(at).copied().unwrap_or(0)
}

// The command of a first byte and the four bytes after it.
fn decode(byte: u8, x: u8, y: u8, z: u8, w: u8) -> Command
    ensures { result ≡ decoded byte x y z w }
{
    match byte {
        1 => Command::Set(x, u16::from_le_bytes([y, z])),
        2 => Command::Add(x, y, z),
        3 => Command::Subtract(x, y, z),
        4 => Command::Load(x, y),
        5 => Command::Store(x, y),
        6 => Command::JumpIfZero(x, u16::from_le_bytes([y, z])),
        7 => Command::Jump(u16::from_le_bytes([x, y])),
        8 => Command::Lfork {
            routine: x,
            result: y,
            arguments: z,
            cut: w,
        },
        9 => Command::Fork {
            routine: x,
            result: y,
            arguments: z,
            cut: w,
        },
        10 => Command::Join,
        11 => Command::Suspend,
        12 => Command::Yield,
        13 => Command::Return(x),
        _ => Command::Share(x),
    }
}

// The command whose first byte stands at a position and the number of its bytes, or why there is none. Bytes after it are ignored.
pub fn read(bytes: &[u8], at: usize) -> Result<(Command, u8), CommandError>
    ensures { ReadAs bytes.now at result }
{
    let Some(&byte) = bytes.get(at) else {
        return Err(CommandError::CutOff);
    };
    let width = width(byte);
    if width == 0 {
        return Err(CommandError::Unknown);
    }
    if bytes.len() - at < usize::from(width) {
        return Err(CommandError::CutOff);
    }
    Ok((command_of(five_at(bytes, at)), width))
}

// The five bytes from a position on; 0 past the end. Mostly there are five, which one test tells.
pub fn five_at(bytes: &[u8], at: usize) -> [u8; 5]
    ensures { result ≡ five_at bytes.now at }
{
    let n = bytes.len();
    if 5 <= n && at <= n - 5 {
        return [
            bytes[at],
            bytes[at + 1],
            bytes[at + 2],
            bytes[at + 3],
            bytes[at + 4],
        ];
    }
    if n <= at {
        return [0; 5];
    }
    [
        bytes[at],
        byte_at(bytes, at + 1),
        byte_at(bytes, at + 2),
        byte_at(bytes, at + 3),
        byte_at(bytes, at + 4),
    ]
}

// The command at the front of five bytes, taken as whole.
pub fn command_of(five: [u8; 5]) -> Command
    ensures { result ≡ decoded_at five 0 }
{
    decode(five[0], five[1], five[2], five[3], five[4])
}

// Writes bytes at the front of a buffer, or nothing where they don't fit.
fn put(buffer: &mut [u8], bytes: &[u8]) -> Result<u8, TooShort>
    requires { length bytes.now ≤ 5 }
    ensures answer { result ≡ put_answer bytes.now buffer.old }
    ensures written { buffer.new ≡ put_to bytes.now buffer.old }
{
    let width = bytes.len();
    if buffer.len() < width {
        return Err(TooShort);
    }
    buffer[..width].copy_from_slice(bytes);
    Ok(width as u8)
}

// Writes a command at the front of a buffer; bytes past it stay. Too short a buffer stays whole. The number of bytes is given.
pub fn write(command: Command, buffer: &mut [u8]) -> Result<u8, TooShort>
    ensures { Wrote command buffer.old buffer.new result }
{
    match command {
        Command::Set(d, v) => {
            let [low, high] = v.to_le_bytes();
            put(buffer, &[1, d, low, high])
        }
        Command::Add(d, a, b) => put(buffer, &[2, d, a, b]),
        Command::Subtract(d, a, b) => put(buffer, &[3, d, a, b]),
        Command::Load(d, a) => put(buffer, &[4, d, a]),
        Command::Store(a, b) => put(buffer, &[5, a, b]),
        Command::JumpIfZero(a, t) => {
            let [low, high] = t.to_le_bytes();
            put(buffer, &[6, a, low, high])
        }
        Command::Jump(t) => {
            let [low, high] = t.to_le_bytes();
            put(buffer, &[7, low, high])
        }
        Command::Lfork {
            routine,
            result,
            arguments,
            cut,
        } => put(buffer, &[8, routine, result, arguments, cut]),
        Command::Fork {
            routine,
            result,
            arguments,
            cut,
        } => put(buffer, &[9, routine, result, arguments, cut]),
        Command::Join => put(buffer, &[10]),
        Command::Suspend => put(buffer, &[11]),
        Command::Yield => put(buffer, &[12]),
        Command::Return(a) => put(buffer, &[13, a]),
        Command::Share(a) => put(buffer, &[14, a]),
    }
}
