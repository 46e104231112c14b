// Windows: `window root` and `window at LO MARK CEILING HI FROM TO` make one, `window join` rejoins it, and `window ends` prints it; `window load
// A`, `window store A` and `window cut E` print the words behind the first, and whether that may be, or the child's six numbers and those of the
// rest; `window give S` prints `share S` and the window that shares from S on.
use crate::yes_or_no;
use cases::Line;
use std::fmt::{Display, Formatter, Write};
use std::{fmt, io};
use window::Window;

const KEYWORDS: [(&str, Option<usize>); 8] = [
    ("root", Some(0)),
    ("at", Some(6)),
    ("join", Some(0)),
    ("ends", Some(0)),
    ("load", Some(1)),
    ("store", Some(1)),
    ("cut", Some(1)),
    ("give", Some(1)),
];

#[derive(Clone, Copy)]
struct Ends(Window);

impl Display for Ends {
    fn fmt<W: Write>(&self, f: &mut Formatter<W>) -> fmt::Result {
        let w = self.0;
        write!(
            f,
            "{} {} {} {} {} {}",
            w.lo, w.mark, w.ceiling, w.hi, w.from, w.to
        )
    }
}

fn end(rt: &impl Print, line: Line<'_>, k: usize) -> io::Result<u16> {
    Ok(line.number(rt, k, 65_535)? as u16)
}

fn address(rt: &impl Print, line: Line<'_>) -> io::Result<u32> {
    Ok(line.number(rt, 1, 4_294_967_295)? as u32)
}

// The same, the line printed before.
fn shown_address(rt: &impl Print, line: Line<'_>) -> io::Result<u32> {
    rt.write_all(line.text)?;
    address(rt, line)
}

fn window_at(rt: &impl Print, line: Line<'_>) -> io::Result<Window> {
    Ok(Window {
        lo: end(rt, line, 1)?,
        mark: end(rt, line, 2)?,
        ceiling: end(rt, line, 3)?,
        hi: end(rt, line, 4)?,
        from: end(rt, line, 5)?,
        to: end(rt, line, 6)?,
    })
}

fn print_cut(rt: &impl Print, line: Line<'_>, window: Window) -> io::Result<()> {
    match window.cut(shown_address(rt, line)?) {
        Some(cut) => println!(rt; " child {} rest {}", Ends(cut.child), Ends(cut.rest)),
        None => println!(rt; " out of range"),
    }
}

fn print_share(rt: &impl Print, line: Line<'_>, window: Window) -> io::Result<()> {
    let start = address(rt, line)?;
    print!(rt; "share {start}")?;
    match window.share(start) {
        Some(rest) => println!(rt; " window {}", Ends(rest)),
        None => println!(rt; " out of range"),
    }
}

pub fn case(rt: &impl Print, line: Line<'_>, window: Window) -> io::Result<Window> {
    match line.keyword(rt, &KEYWORDS)? {
        Some("root") => return Ok(Window::root()),
        Some("at") => return window_at(rt, line),
        Some("join") => return Ok(window.rejoin()),
        Some("ends") => println!(rt; "window {}", Ends(window))?,
        Some("load") => {
            println!(rt; " {}", yes_or_no(window.may_load(shown_address(rt, line)?)))?;
        }
        Some("store") => {
            println!(rt;
                " {}",
                yes_or_no(window.may_store(shown_address(rt, line)?))
            )?;
        }
        Some("cut") => print_cut(rt, line, window)?,
        Some("give") => print_share(rt, line, window)?,
        _ => {}
    }
    Ok(window)
}
