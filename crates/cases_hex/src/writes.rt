// Images, and their texts.
use crate::reads::read;
use cases::Line;
use std::io;

// Room for any image's text, and for any text's bytes.
const LONGEST: usize = 65_536;

// The number that an image is refused by, 0 where it is written, and the count of characters.
fn write(image: &[u8], text: &mut [u8]) -> (u8, usize) {
    match intel_hex::write(image, text) {
        Ok(count) => (0, count),
        Err(error) => (error.number(), 0),
    }
}

pub fn image(rt: &(impl Print + AllocGlobal), line: Line<'_>) -> io::Result<()> {
    let image = line.bytes(rt, 2, LONGEST)?;
    rt.write_all(line.text)?;
    let room = line.number(rt, 1, 1024)? as usize;
    let mut text = [b'.'; 1024];
    let (number, count) = write(&image, &mut text[..room]);
    println!(rt; " gives {number} {count}")?;
    rt.write_all(&text[..room])?;
    println!(rt; "|")
}

pub fn back(rt: &(impl Print + AllocGlobal), line: Line<'_>) -> io::Result<()> {
    let image = line.bytes(rt, 1, LONGEST)?;
    rt.write_all(line.text)?;
    let mut text = vec![in rt.alloc(); 0; LONGEST]?;
    let (number, written) = write(&image, &mut text);
    print!(rt; " gives {number} {written},")?;
    let mut bytes = vec![in rt.alloc(); 0; LONGEST]?;
    let (number, count) = read(&text[..written.min(LONGEST)], &mut bytes);
    print!(rt; " gives {number} {count},")?;
    if bytes.get(..count) == Some(&image) {
        println!(rt; " the same")
    } else {
        println!(rt; " others")
    }
}
