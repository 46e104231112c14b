// Inputs of the print program, each with its transcript under a heading. The expected texts were worked out by hand from document 01.
//
// The cases are the lines of standard input, in the form that the crate `cases` tells:
//
// - `print BYTES` prints the transcript of an input.
// - `length BYTES` prints the length of the transcript, and what a buffer of 24 bytes has of it.
#![tactic(auto)]

use cases::Line;
use std::io;

// The longest input that the print program reads.
const LONGEST: usize = 99_332;

fn print(rt: &(impl Print + AllocGlobal), line: Line<'_>) -> io::Result<()> {
    let input = line.bytes(rt, 1, LONGEST)?;
    println!(rt)?;
    let mut output = vec![in rt.alloc(); 0; 163_871]?;
    let n = transcript::print(&input, &mut output);
    rt.write_all(&output[..n])
}

fn length(rt: &(impl Print + AllocGlobal), line: Line<'_>) -> io::Result<()> {
    let input = line.bytes(rt, 1, LONGEST)?;
    println!(rt)?;
    let mut output = [b'.'; 24];
    println!(rt; "{}", transcript::print(&input, &mut output))?;
    rt.write_all(&output)?;
    println!(rt)
}

fn main(rt: HostRuntime) -> io::Result<()> {
    let input = cases::input(&rt)?;
    for text in input.split(|byte| cases::ends_line(byte)) {
        let line = Line { text };
        match line.keyword(&rt, &[("print", None), ("length", None)])? {
            Some("print") => print(&rt, line)?,
            Some("length") => length(&rt, line)?,
            _ => {}
        }
    }
    Ok(())
}
