// The serial run, driven at its edges. What is to be printed was worked out by hand from document 01.
//
// The cases are the lines of standard input, in the form that the crate `cases` tells:
//
// - `image BYTES` is the image of the runs after it; before it, the input's first line stands for it.
// - `run ALLOWANCE ARGUMENTS` prints how a run ended and the words at 32, 33 and 1,023. Its parameter words are 100 at 0, 131 at 31 and 3
//   between; its memory words 11 at 32, 13 at 1,023 and 7 between.
// - `lengths P M ARGUMENTS` is a run with P parameter words, all 3, M memory words, all 7, and allowance 100. It prints how the run ended
//   and the word at 32.
#![tactic(auto)]

mod runs;

use cases::Line;
use std::io;

fn main(rt: HostRuntime) -> io::Result<()> {
    let input = cases::input(&rt)?;
    let mut image = cases::first_line(&input);
    for text in input.split(|byte| cases::ends_line(byte)) {
        let line = Line { text };
        match line.keyword(&rt, &[("image", None), ("run", None), ("lengths", None)])? {
            Some("image") => image = line,
            Some("run") => runs::run(&rt, line, image)?,
            Some("lengths") => runs::lengths(&rt, line, image)?,
            _ => {}
        }
    }
    Ok(())
}
