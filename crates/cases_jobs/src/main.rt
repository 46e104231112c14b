// Four jobs, each by the serial run, by five schedules of very different orders on 1 to 4 cores, and by the built-in scheduler on 1 to 4
// cores. Whatever the order, a job ends with the same result, units and memory. The expected lines were worked out by hand.
//
// The cases are the lines of standard input, in the form that the crate `cases` tells. Runs are on zero parameter and memory words, with
// allowance 4,000:
//
// - `image BYTES` is the image of the runs after it; before it, the input's first line stands for it.
// - `entries SIZE PATTERN` is the schedule of the runs by schedule after it: a pattern of entries, told in src/pattern.rt, over and over,
//   SIZE bytes of it; before it, the input's first line stands for it.
// - `serial 1 ARGUMENTS` prints how the serial run ended.
// - `run CORES ARGUMENTS` prints how a run by schedule ended, and whether its memory is the serial run's.
// - `built-in CORES ARGUMENTS` prints the same of the built-in scheduler's run, and then of a run by the entries that it wrote.
#![tactic(auto)]

mod job;
mod pattern;

use cases::Line;
use job::Job;
use std::io;

const KEYWORDS: [(&str, Option<usize>); 5] = [
    ("image", None),
    ("entries", None),
    ("serial", None),
    ("run", None),
    ("built-in", None),
];

fn main(rt: HostRuntime) -> io::Result<()> {
    let input = cases::input(&rt)?;
    let mut image = cases::first_line(&input);
    let mut entries = image;
    for text in input.split(|byte| cases::ends_line(byte)) {
        let line = Line { text };
        match line.keyword(&rt, &KEYWORDS)? {
            Some("image") => image = line,
            Some("entries") => entries = line,
            Some("serial") => Job::read(&rt, line, image)?.print_serial(&rt)?,
            Some("run") => {
                let job = Job::read(&rt, line, image)?;
                job.print_run(&rt, &pattern::bytes(&rt, entries)?)?;
            }
            Some("built-in") => Job::read(&rt, line, image)?.print_built_in(&rt)?,
            _ => {}
        }
    }
    Ok(())
}
