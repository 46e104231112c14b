// Commands, rows and bytes as text.
use command::Command;
use image::Row;
use std::fmt;
use std::fmt::{Display, Formatter, Write};

// A command's name and its operands in decimal.
#[derive(Clone, Copy)]
pub struct Named(pub Command);

impl Display for Named {
    fn fmt<W: Write>(&self, f: &mut Formatter<W>) -> fmt::Result {
        match self.0 {
            Command::Set(d, v) => write!(f, "set {d} {v}"),
            Command::Add(d, a, b) => write!(f, "add {d} {a} {b}"),
            Command::Subtract(d, a, b) => write!(f, "subtract {d} {a} {b}"),
            Command::Load(d, a) => write!(f, "load {d} {a}"),
            Command::Store(a, b) => write!(f, "store {a} {b}"),
            Command::JumpIfZero(a, target) => write!(f, "jump if zero {a} {target}"),
            Command::Jump(target) => write!(f, "jump {target}"),
            Command::Lfork {
                routine,
                result,
                arguments,
                cut,
            } => write!(f, "lfork {routine} {result} {arguments} {cut}"),
            Command::Fork {
                routine,
                result,
                arguments,
                cut,
            } => write!(f, "fork {routine} {result} {arguments} {cut}"),
            Command::Join => write!(f, "join"),
            Command::Suspend => write!(f, "suspend"),
            Command::Yield => write!(f, "yield"),
            Command::Return(a) => write!(f, "return {a}"),
            Command::Share(a) => write!(f, "share {a}"),
        }
    }
}

// A routine's row.
#[derive(Clone, Copy)]
pub struct Columns(pub Row);

impl Display for Columns {
    fn fmt<W: Write>(&self, f: &mut Formatter<W>) -> fmt::Result {
        let row = self.0;
        write!(
            f,
            "{} {} {} {}",
            row.slots, row.arguments, row.start, row.length
        )
    }
}

// Each byte after a blank, as two hexadecimal digits.
#[derive(Clone, Copy)]
pub struct Hexadecimal<'a>(pub &'a [u8]);

impl Display for Hexadecimal<'_> {
    fn fmt<W: Write>(&self, f: &mut Formatter<W>) -> fmt::Result {
        for byte in self.0 {
            write!(f, " {byte:02x}")?;
        }
        Ok(())
    }
}
