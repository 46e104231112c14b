// Reads Intel HEX: the text is read from standard input, and the bytes that its records say are written to standard output.
#![tactic(auto)]

ghost use Rattle.std.specs.Prelude.{◌≡◌, length, take, OnOk, IfSome};
ghost use Rattle.std.specs.Io.KnownBytes.{Appends};
ghost use Rattle.hex_read.specs.Given.{given_by};

use std::io;
use std::io::{Read, Write};

// Zeros. (Kept: where an array of so many is written in place, the proof counts them, and runs out of stack.)
fn zeros<const N: usize>() -> [u8; N]
    ensures { length result ≡ N }
{
    [0; N]
}

// Writes what is to be written of the text that a reader has. Of the text one character more is read than the longest that is read has, 65,536
// records of one byte and the end record, each with CR LF: a longer one is refused (`longest-text` in crates/hex_output/proofs/Longer.antt), by the
// number of its first 983,054 characters. The output has room for the bytes of the longest text.
fn read_text<R: Read, W: Write>(reader: &mut R, writer: &mut W) -> io::Result<()>
    ensures { OnOk result
        (IfSome (R.remaining reader.old) (λ text. Appends (W.contents writer.old) (W.contents writer.new) (given_by (take 983054 text)))) }
{
    let mut input = zeros::<983054>();
    let mut output = zeros::<65536>();
    let got = stream::read_full(reader, &mut input)?;
    let n = hex_output::read_output(&input[..got], &mut output);
    writer.write_all(&output[..n])
}

fn main(rt: HostRuntime) -> io::Result<()> {
    read_text(&mut rt.stdin(), &mut io::writer(&rt))
}
