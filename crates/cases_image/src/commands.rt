// Commands, read and written.
ghost use Rattle.std.specs.Prelude.{◌≤◌};

use crate::show::{Hexadecimal, Named};
use cases::Line;
use command::{Command, CommandError};
use std::io;

// The number of document 01 that bytes meet in which no command stands.
fn number_of(error: CommandError) -> u8 {
    match error {
        CommandError::Unknown => 4,
        CommandError::CutOff => 5,
    }
}

// What writing answers: the number of bytes, or 25.
fn write_to(buffer: &mut [u8], command: Command) -> u8 {
    command::write(command, buffer).unwrap_or(25)
}

fn print_read(rt: &impl Print, bytes: &[u8], at: usize) -> io::Result<()> {
    print!(rt; "read{} at {at}: ", Hexadecimal(bytes))?;
    match command::read(bytes, at) {
        Ok((command, width)) => println!(rt; "{}; {width}", Named(command)),
        Err(error) => println!(rt; "{}", number_of(error)),
    }
}

pub fn read(rt: &(impl Print + AllocGlobal), line: Line<'_>) -> io::Result<()> {
    let at = line.number(rt, 1, u64::MAX)? as usize;
    let bytes = line.bytes(rt, 2, 65_536)?;
    print_read(rt, &bytes, at)
}

// The numbers that the bytes meet, cut to each length from 0 to 5, 0 where they hold a command.
fn print_cuts(rt: &impl Print, bytes: &[u8; 7]) -> io::Result<()> {
    print!(rt; "cut:")?;
    for n in 0..6 {
        let number = match command::read(&bytes[..n], 0) {
            Ok(_) => 0,
            Err(error) => number_of(error),
        };
        print!(rt; " {number}")?;
    }
    println!(rt)
}

fn print_four(rt: &impl Print, command: Command, short: usize) -> io::Result<()>
    requires { short ≤ 7 }
{
    let mut bytes = [0xee; 7];
    let written = write_to(&mut bytes, command);
    println!(rt; "write: {written};{}", Hexadecimal(&bytes))?;
    print_read(rt, &bytes, 0)?;
    print_cuts(rt, &bytes)?;
    let mut few = [0xee; 7];
    let written = write_to(&mut few[..short], command);
    println!(rt; "short: {written};{}", Hexadecimal(&few))
}

pub fn command(rt: &(impl Print + AllocGlobal), line: Line<'_>) -> io::Result<()> {
    let short = line.number(rt, 1, 7)? as usize;
    let bytes = line.bytes(rt, 2, 4096)?;
    match command::read(&bytes, 0) {
        Ok((command, _)) => print_four(rt, command, short),
        Err(error) => println!(rt; " {}", number_of(error)),
    }
}

pub fn weight(rt: &impl Print, line: Line<'_>) -> io::Result<()> {
    let byte = line.number(rt, 1, 255)? as u8;
    rt.write_all(line.text)?;
    println!(rt; ": {}", command::weight(byte))
}
