// Images, their numbers and their programs.
use crate::show::Columns;
use cases::Line;
use image::number::image_number;
use image::{Program, Row};
use std::io;

// A program of no routine, printed of an image that is refused.
const NONE: Program = Program {
    count: 0,
    rows: [Row {
        slots: 0,
        arguments: 0,
        start: 0,
        length: 0,
    }; 32],
};

pub fn verdict(rt: &(impl Print + AllocGlobal), line: Line<'_>) -> io::Result<()> {
    let image = line.bytes(rt, 1, 65_536)?;
    println!(rt; ": {}", image_number(&image::check(&image)))
}

pub fn image(rt: &(impl Print + AllocGlobal), line: Line<'_>) -> io::Result<()> {
    rt.write_all(line.text)?;
    verdict(rt, line)
}

pub fn program(rt: &(impl Print + AllocGlobal), line: Line<'_>) -> io::Result<()> {
    let image = line.bytes(rt, 1, 65_536)?;
    let program = image::check(&image).unwrap_or(NONE);
    let rows = program.rows;
    println!(rt;
        ": {}; {}; {}; {}",
        program.count,
        Columns(rows[0]),
        Columns(rows[1]),
        Columns(rows[31])
    )
}
