// Schedule entries: `entry read AT BYTES` prints the number of bytes, the position, the entry there and the position after it. `entry write
// AT BYTES` writes the entry of these bytes into six bytes of 99 and prints the entry, the position, the number of bytes written, and the
// six bytes. `count BYTES` prints the number of bytes and of entries.
use cases::{Line, Listed};
use schedule::{Entry, Malformed, NoRoom};
use std::fmt::{Display, Formatter, Write};
use std::{fmt, io};

#[derive(Clone, Copy)]
struct Named(Entry);

impl Display for Named {
    fn fmt<W: Write>(&self, f: &mut Formatter<W>) -> fmt::Result {
        match self.0 {
            Entry::Step(core) => write!(f, "step {core}"),
            Entry::Take(core) => write!(f, "take {core}"),
            Entry::Steal(core, thread) => write!(f, "steal {core} {thread}"),
            Entry::Enable(thread) => write!(f, "enable {thread}"),
        }
    }
}

fn read(rt: &impl Print, bytes: &[u8], at: usize) -> io::Result<()> {
    print!(rt; "read {} {at}:", bytes.len())?;
    match schedule::read(bytes, at) {
        Ok(Some((entry, after))) => println!(rt; " {} {after}", Named(entry)),
        Ok(None) => println!(rt; " end"),
        Err(Malformed) => println!(rt; " refused 13"),
    }
}

fn write(rt: &impl Print, bytes: &[u8], at: usize) -> io::Result<()> {
    match schedule::read(bytes, 0) {
        Ok(Some((entry, _))) => {
            print!(rt; "write {} {at}:", Named(entry))?;
            let mut six = [99; 6];
            match schedule::write(entry, &mut six, at) {
                Ok(n) => print!(rt; " {n},")?,
                Err(NoRoom) => print!(rt; " no room,")?,
            }
            println!(rt; "{}", Listed(&six))
        }
        Ok(None) => println!(rt; " end"),
        Err(Malformed) => println!(rt; " refused 13"),
    }
}

pub fn case(rt: &(impl Print + AllocGlobal), line: Line<'_>) -> io::Result<()> {
    let keyword = line.keyword(rt, &[("read", None), ("write", None)])?;
    let at = line.number(rt, 1, u64::MAX)? as usize;
    let bytes = line.bytes(rt, 2, 4096)?;
    match keyword {
        Some("read") => read(rt, &bytes, at),
        Some("write") => write(rt, &bytes, at),
        _ => Ok(()),
    }
}

pub fn count(rt: &(impl Print + AllocGlobal), line: Line<'_>) -> io::Result<()> {
    let bytes = line.bytes(rt, 1, 65_536)?;
    print!(rt; "count {}:", bytes.len())?;
    match schedule::count(&bytes) {
        Ok(n) => println!(rt; " {n}"),
        Err(Malformed) => println!(rt; " refused 13"),
    }
}
