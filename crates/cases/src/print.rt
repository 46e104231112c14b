// What prints alike.
use std::fmt::{Display, Formatter, Write};
use std::{fmt, io};

// Each item after a blank.
#[derive(Clone, Copy)]
pub struct Listed<'a, T>(pub &'a [T]);

impl<T: Display> Display for Listed<'_, T> {
    fn fmt<W: Write>(&self, f: &mut Formatter<W>) -> fmt::Result {
        for item in self.0 {
            write!(f, " {item}")?;
        }
        Ok(())
    }
}

pub fn bad_line(rt: &impl Print) -> io::Result<()> {
    println!(rt; "bad line")
}
