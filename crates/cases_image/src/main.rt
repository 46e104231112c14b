// The image reader and the command reader and writer, driven at their edges. What is to be printed was worked out by hand from document 01 and T-04.
//
// The cases are the lines of standard input, in the form that the crate `cases` tells:
//
// - `image BYTES` prints itself and the number that the image is refused by, 0 for none; `verdict BYTES` that number alone.
// - `program BYTES` prints the count of the image's routines, and slots, arguments, start and length of routines 0, 1 and 31.
// - `command SHORT BYTES` prints four lines: the command written into seven bytes EE, read back, cut to each length from 0 to 5, and written
//   into SHORT bytes, one too few.
// - `read AT BYTES` prints the command at a position and the number of its bytes, or the number that it meets.
// - `weight N` prints itself and the weight of command byte N.
#![tactic(auto)]

mod commands;
mod images;
mod show;

use cases::Line;
use std::io;

const KEYWORDS: [(&str, Option<usize>); 6] = [
    ("image", None),
    ("verdict", None),
    ("program", None),
    ("command", None),
    ("read", None),
    ("weight", Some(1)),
];

fn main(rt: HostRuntime) -> io::Result<()> {
    let input = cases::input(&rt)?;
    for text in input.split(|byte| cases::ends_line(byte)) {
        let line = Line { text };
        match line.keyword(&rt, &KEYWORDS)? {
            Some("image") => images::image(&rt, line)?,
            Some("verdict") => images::verdict(&rt, line)?,
            Some("program") => images::program(&rt, line)?,
            Some("command") => commands::command(&rt, line)?,
            Some("read") => commands::read(&rt, line)?,
            Some("weight") => commands::weight(&rt, line)?,
            _ => {}
        }
    }
    Ok(())
}
