// Queues: `queue new` and `queue ascending N` make one, `queue dequeue` and `queue enqueue N` change it, and `queue show` prints its length,
// its numbers as they are handed out, and what it hands out after them.
use cases::Line;
use queue::Queue;
use std::io;

const KEYWORDS: [(&str, Option<usize>); 5] = [
    ("new", Some(0)),
    ("ascending", Some(1)),
    ("dequeue", Some(0)),
    ("enqueue", Some(1)),
    ("show", Some(0)),
];

fn show(rt: &impl Print, queue: Queue) -> io::Result<()> {
    print!(rt; " {}:", queue.len())?;
    let mut left = queue;
    for _ in 0..=queue.len() {
        let (first, rest) = left.dequeue();
        match first {
            Some(n) => print!(rt; " {n}")?,
            None => println!(rt; " nothing")?,
        }
        left = rest;
    }
    Ok(())
}

pub fn case(rt: &impl Print, line: Line<'_>, queue: Queue) -> io::Result<Queue> {
    Ok(match line.keyword(rt, &KEYWORDS)? {
        Some("new") => Queue::new(),
        Some("ascending") => Queue::ascending(line.number(rt, 1, 255)? as u8),
        Some("dequeue") => queue.dequeue().1,
        Some("enqueue") => queue.enqueue(line.number(rt, 1, 255)? as u8),
        Some("show") => {
            show(rt, queue)?;
            queue
        }
        _ => queue,
    })
}
