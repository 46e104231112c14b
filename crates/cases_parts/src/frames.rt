// Stacklets, over 1,024 words that are 7 at first: `frame new` has no frame; `frame arguments S SIZE ARGUMENTS` and `frame push S SIZE FROM
// COUNT` push a frame on stacklet S, `frame drop BASE SIZE` pops it, and `frame set BASE K VALUE` sets a slot. `frame top S`, `frame fits S
// SIZE` and `frame words BASE` print the words behind the first, and the answer; of words, five from a base on. `frame highest BASE SIZE`
// prints whether a frame is the topmost.
use crate::yes_or_no;
use cases::{Line, Listed};
use stacklets::{Stacklets, set_slot, slot};
use std::io;

const KEYWORDS: [(&str, Option<usize>); 9] = [
    ("new", Some(0)),
    ("arguments", None),
    ("push", Some(4)),
    ("drop", Some(2)),
    ("set", Some(3)),
    ("top", Some(1)),
    ("fits", Some(2)),
    ("highest", Some(2)),
    ("words", Some(1)),
];

fn byte(rt: &impl Print, line: Line<'_>, k: usize) -> io::Result<u8> {
    Ok(line.number(rt, k, 255)? as u8)
}

fn base(rt: &impl Print, line: Line<'_>, k: usize) -> io::Result<u16> {
    Ok(line.number(rt, k, 65_535)? as u16)
}

// Changes the stacklets or their words, or prints of them.
pub fn case(
    rt: &(impl Print + AllocGlobal),
    line: Line<'_>,
    s: Stacklets,
    words: &mut [u32; 1024],
) -> io::Result<Stacklets> {
    match line.keyword(rt, &KEYWORDS)? {
        Some("new") => return Ok(Stacklets::new()),
        Some("arguments") => {
            let arguments = line.numbers(rt, 3)?;
            return Ok(s.push_arguments(words, byte(rt, line, 1)?, byte(rt, line, 2)?, &arguments));
        }
        Some("push") => return push(rt, line, s, words),
        Some("drop") => return Ok(s.pop(words, base(rt, line, 1)?, byte(rt, line, 2)?)),
        Some("set") => {
            let value = line.number(rt, 3, 4_294_967_295)? as u32;
            set_slot(words, base(rt, line, 1)?, byte(rt, line, 2)?, value);
        }
        Some("highest") => {
            let topmost = s.is_topmost(base(rt, line, 1)?, byte(rt, line, 2)?);
            println!(rt; " {}", yes_or_no(topmost))?;
        }
        other => {
            rt.write_all(line.text)?;
            answer(rt, other, line, s, words)?;
        }
    }
    Ok(s)
}

fn push(
    rt: &impl Print,
    line: Line<'_>,
    s: Stacklets,
    words: &mut [u32; 1024],
) -> io::Result<Stacklets> {
    let stacklet = byte(rt, line, 1)?;
    let size = byte(rt, line, 2)?;
    let from = base(rt, line, 3)?;
    let count = byte(rt, line, 4)?;
    Ok(s.push(words, stacklet, size, from, count))
}

// What is printed behind the line itself: nothing where it is bad.
fn answer(
    rt: &impl Print,
    keyword: Option<&'static str>,
    line: Line<'_>,
    s: Stacklets,
    words: &[u32; 1024],
) -> io::Result<()> {
    match keyword {
        Some("top") => println!(rt; " {}", s.top(byte(rt, line, 1)?)),
        Some("fits") => {
            let fits = s.fits(byte(rt, line, 1)?, byte(rt, line, 2)?);
            println!(rt; " {}", yes_or_no(fits))
        }
        Some("words") => {
            let from = base(rt, line, 1)?;
            println!(rt;
                ":{}",
                Listed(&[0, 1, 2, 3, 4].map(|k| slot(words, from, k)))
            )
        }
        _ => Ok(()),
    }
}
