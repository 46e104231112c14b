// Writes an image as Intel HEX: the image is read from standard input, and its text is written to standard output.
#![tactic(auto)]

ghost use Rattle.std.specs.Prelude.{OnOk, IfSome};
ghost use Rattle.std.specs.Io.KnownBytes.{Appends};
ghost use Rattle.hex_write.specs.Written.{written_of};

use std::io;
use std::io::{Read, Write};

// Writes what is to be written of the image that a reader has. Of the image one byte more is read than the longest has: a longer one is refused by
// 1, as its first 4,097 bytes are (`rest-ignored` in crates/hex_output/proofs/Longer.antt). The output has room for the longest image's text.
fn write_image<R: Read, W: Write>(reader: &mut R, writer: &mut W) -> io::Result<()>
    ensures { OnOk result (IfSome (R.remaining reader.old) (λ image. Appends (W.contents writer.old) (W.contents writer.new) (written_of image))) }
{
    let mut input = [0; 4097];
    let mut output = [0; 11276];
    let got = stream::read_full(reader, &mut input)?;
    let n = hex_output::write_output(&input[..got], &mut output);
    writer.write_all(&output[..n])
}

fn main(rt: HostRuntime) -> io::Result<()> {
    write_image(&mut rt.stdin(), &mut io::writer(&rt))
}
