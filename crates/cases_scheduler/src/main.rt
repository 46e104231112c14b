// Runs by the built-in scheduler. The expected lines were worked out by a second implementation, written from document 01 alone, those of the
// worked rows and of T-12 by hand.
//
// The cases are the lines of standard input, in the form that the crate `cases` tells:
//
// - `image BYTES` is the image of the runs after it; before it, the input's first line stands for it.
// - `run CORES ALLOWANCE SIZE ARGUMENTS` is a run on zero parameter and memory words, with a buffer of SIZE bytes, at most 128. It prints
//   the bytes of its entries, the words at 32 to 35, and the answer.
#![tactic(auto)]

use cases::{Line, Listed};
use cases_answers::Ended;
use std::io;

fn run(rt: &(impl Print + AllocGlobal), line: Line<'_>, image: Line<'_>) -> io::Result<()> {
    let image = image.bytes(rt, 1, 4096)?;
    let cores = line.number(rt, 1, 255)? as u8;
    let allowance = line.number(rt, 2, 4_294_967_295)? as u32;
    let size = line.number(rt, 3, 128)? as usize;
    let arguments = line.numbers(rt, 4)?;
    let mut memory = [0; 992];
    let mut buffer = [255; 128];
    let ran = scheduler::run(
        &image,
        cores,
        &arguments,
        &[0; 32],
        &mut memory,
        allowance,
        &mut buffer[..size],
    );
    println!(rt; "entries{}", Listed(&buffer[..ran.used.min(size)]))?;
    println!(rt; "memory{}", Listed(&memory[..4]))?;
    println!(rt; "{}", Ended(ran.ran.shown.answer))
}

fn main(rt: HostRuntime) -> io::Result<()> {
    let input = cases::input(&rt)?;
    let mut image = cases::first_line(&input);
    for text in input.split(|byte| cases::ends_line(byte)) {
        let line = Line { text };
        match line.keyword(&rt, &[("image", None), ("run", None)])? {
            Some("image") => image = line,
            Some("run") => run(&rt, line, image)?,
            _ => {}
        }
    }
    Ok(())
}
