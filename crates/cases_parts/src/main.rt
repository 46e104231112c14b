// Each of the machine's parts, driven at its edges. What is to be printed was worked out by hand from document 01.
//
// The cases are the lines of standard input, in the form that the crate `cases` tells. The first word names the part, and the others are told
// at the head of the part's file. The queue, the window and the stacklets go on from line to line.
#![tactic(auto)]

mod entries;
mod frames;
mod queues;
mod views;
mod windows;

use cases::Line;
use queue::Queue;
use stacklets::Stacklets;
use std::io;
use window::Window;

const KEYWORDS: [(&str, Option<usize>); 7] = [
    ("queue", None),
    ("entry", None),
    ("count", None),
    ("view", Some(2)),
    ("lengths", Some(4)),
    ("window", None),
    ("frame", None),
];

fn yes_or_no(holds: bool) -> &'static str {
    if holds { "yes" } else { "no" }
}

fn main(rt: HostRuntime) -> io::Result<()> {
    let input = cases::input(&rt)?;
    let mut queue = Queue::new();
    let mut window = Window::root();
    let mut stacklets = Stacklets::new();
    let mut words = [7; 1024];
    for text in input.split(|byte| cases::ends_line(byte)) {
        let line = Line { text };
        let rest = line.from_field(1);
        match line.keyword(&rt, &KEYWORDS)? {
            Some("queue") => queue = queues::case(&rt, rest, queue)?,
            Some("entry") => entries::case(&rt, rest)?,
            Some("count") => entries::count(&rt, line)?,
            Some("view") => views::view(&rt, line)?,
            Some("lengths") => views::lengths(&rt, line)?,
            Some("window") => window = windows::case(&rt, rest, window)?,
            Some("frame") => stacklets = frames::case(&rt, rest, stacklets, &mut words)?,
            _ => {}
        }
    }
    Ok(())
}
