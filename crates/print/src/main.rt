// The print program: a job is read from standard input, and its transcript is written to standard output.
#![tactic(auto)]

ghost use Rattle.std.specs.Prelude.{◌≡◌, length, OnOk, IfSome};
ghost use Rattle.std.specs.Io.KnownBytes.{Appends};
ghost use Rattle.transcript.specs.Transcript.{text_of};
ghost use Rattle.print.specs.Bytes.{AreBytes};

use std::io;
use std::io::{Read, Write};

// A buffer of zeros.
fn buffer<const N: usize>() -> [u8; N]
    ensures { N ≡ length result }
{
    [0; N]
}

// Writes the transcript of the job that a reader has.
fn print_job<R: Read, W: Write>(reader: &mut R, writer: &mut W) -> io::Result<()>
    ensures { OnOk result
        (IfSome (R.remaining reader.old) (λ job. AreBytes job → Appends (W.contents writer.old) (W.contents writer.new) (text_of job))) }
{
    // All bytes of an input that matter: 2, four for each of at most 255 arguments, 4, 2, an image of at most 65,535, and one more than the
    // 32,768 that a schedule may have. What follows has no part in the text (`rest-ignored` in crates/transcript/proofs/Longer.antt).
    let mut input = buffer::<99332>();
    // Room for the longest transcript.
    let mut output = buffer::<163871>();
    let got = stream::read_full(reader, &mut input)?;
    let n = transcript::print(&input[..got], &mut output);
    writer.write_all(&output[..n])
}

fn main(rt: HostRuntime) -> io::Result<()> {
    print_job(&mut rt.stdin(), &mut io::writer(&rt))
}
