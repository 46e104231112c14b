// Texts, and the bytes that are read.
use cases::{Line, Listed};
use std::io;

// The number that a text is refused by, 0 where it is read, and the count of bytes.
pub fn read(text: &[u8], bytes: &mut [u8]) -> (u8, usize) {
    match intel_hex::read(text, bytes) {
        Ok(count) => (0, count),
        Err(error) => (error.number(), 0),
    }
}

fn print_read(rt: &impl Print, line: Line<'_>, text: &[u8]) -> io::Result<()> {
    rt.write_all(line.text)?;
    let room = line.number(rt, 1, 256)? as usize;
    let mut bytes = [99; 256];
    let (number, count) = read(text, &mut bytes[..room]);
    println!(rt; " gives {number} {count}:{}", Listed(&bytes[..room]))
}

pub fn text(rt: &(impl Print + AllocGlobal), line: Line<'_>) -> io::Result<()> {
    let characters: Vec<u8> = line
        .from_field(2)
        .text
        .iter()
        .map(|byte| match byte {
            b'~' => b'\n',
            b'^' => b'\r',
            other => *other,
        })
        .collect(rt.alloc())?;
    print_read(rt, line, &characters)
}

pub fn octets(rt: &(impl Print + AllocGlobal), line: Line<'_>) -> io::Result<()> {
    let text = line.bytes(rt, 2, 65_536)?;
    print_read(rt, line, &text)
}
