// Runs by schedule. The expected lines were worked out by a second implementation, written from document 01 alone; document 01's own cases are
// among them, with the lines that it gives. Those of the worked rows (crates/rules/specs/Rows.antt, RowsWords.antt) are the rows' own, worked out by
// hand; those of the other `words` lines were worked out by a model of document 01 and T-02, written from the two alone, and the second implementation
// gives the same.
//
// The cases are the lines of standard input, in the form that the crate `cases` tells:
//
// - `image BYTES` is the image of the runs after it, and `schedule BYTES` their schedule; before them, the input's first line stands for each.
// - `run CORES ALLOWANCE ARGUMENTS` is a run on parameter words that are zero but for the last, 131, and on zero memory words. It prints the log,
//   the words at 32 to 35, and the answer.
// - `count CORES ALLOWANCE ARGUMENTS` prints of such a run also how many thread records are free, running, ready, suspended, waiting and lent.
// - `words CORES ALLOWANCE ARGUMENTS` prints, at such a run's start and after each of its entries, which words of the stacklets are not zero, each
//   as its number and its value; of a refused run, the answer alone.
#![tactic(auto)]

mod job;
mod words;

use cases::Line;
use job::Job;
use std::io;

const KEYWORDS: [(&str, Option<usize>); 5] = [
    ("image", None),
    ("schedule", None),
    ("run", None),
    ("count", None),
    ("words", None),
];

fn main(rt: HostRuntime) -> io::Result<()> {
    let input = cases::input(&rt)?;
    let mut image = cases::first_line(&input);
    let mut schedule = image;
    for text in input.split(|byte| cases::ends_line(byte)) {
        let line = Line { text };
        match line.keyword(&rt, &KEYWORDS)? {
            Some("image") => image = line,
            Some("schedule") => schedule = line,
            Some("run") => Job::read(&rt, line, image, schedule)?.print_run(&rt)?,
            Some("count") => Job::read(&rt, line, image, schedule)?.print_count(&rt)?,
            Some("words") => words::print(&rt, &Job::read(&rt, line, image, schedule)?)?,
            _ => {}
        }
    }
    Ok(())
}
