// Images as Intel HEX, read and written at the edges. The expected lines were worked out by a second implementation, written from document 02's
// words and the public specification alone; those of the worked rows (crates/hex_format/specs/Cases.antt) are the rows' own, worked out by hand.
//
// The cases are the lines of standard input, in the form that the crate `cases` tells. Each prints itself and its answer:
//
// - `text ROOM TEXT` reads a text into ROOM bytes of 99, at most 256. In the text `~` stands for LF and `^` for CR. It prints the number, the
//   count of bytes, and all ROOM bytes after the call.
// - `octets ROOM BYTES` is the same of a text whose characters are given as bytes.
// - `image ROOM BYTES` writes an image into ROOM characters `.`, at most 1,024. It prints the number, the count of characters, and all ROOM
//   characters after the call, with a `|` behind them.
// - `back BYTES` writes an image and reads its text. It prints the number and the count of each, and whether the bytes are the image's.
#![tactic(auto)]

mod reads;
mod writes;

use cases::Line;
use std::io;

const KEYWORDS: [(&str, Option<usize>); 4] = [
    ("text", None),
    ("octets", None),
    ("image", None),
    ("back", None),
];

fn main(rt: HostRuntime) -> io::Result<()> {
    let input = cases::input(&rt)?;
    for text in input.split(|byte| cases::ends_line(byte)) {
        let line = Line { text };
        match line.keyword(&rt, &KEYWORDS)? {
            Some("text") => reads::text(&rt, line)?,
            Some("octets") => reads::octets(&rt, line)?,
            Some("image") => writes::image(&rt, line)?,
            Some("back") => writes::back(&rt, line)?,
            _ => {}
        }
    }
    Ok(())
}
