// Runs, and what is printed of them.
use cases::Line;
use cases_answers::SerialEnded;
use serial::serial;
use std::io;

pub fn run(rt: &(impl Print + AllocGlobal), line: Line<'_>, image: Line<'_>) -> io::Result<()> {
    let image = image.bytes(rt, 1, 4096)?;
    let arguments = line.numbers(rt, 2)?;
    let allowance = line.number(rt, 1, 4_294_967_295)? as u32;
    let mut parameters = [3; 32];
    parameters[0] = 100;
    parameters[31] = 131;
    let mut memory = [7; 992];
    memory[0] = 11;
    memory[991] = 13;
    let ended = SerialEnded(serial(&image, &arguments, &parameters, &mut memory, allowance));
    println!(rt;
        ": {ended}, words {} {} {}",
        memory[0], memory[1], memory[991]
    )
}

pub fn lengths(rt: &(impl Print + AllocGlobal), line: Line<'_>, image: Line<'_>) -> io::Result<()> {
    let image = image.bytes(rt, 1, 4096)?;
    let arguments = line.numbers(rt, 3)?;
    let parameters = line.number(rt, 1, 64)? as usize;
    let words = line.number(rt, 2, 1024)? as usize;
    let mut memory = [7; 1024];
    let ended = SerialEnded(serial(
        &image,
        &arguments,
        &[3; 64][..parameters],
        &mut memory[..words],
        100,
    ));
    println!(rt; ": {ended}, words {}", memory[0])
}
