// Lines and their keywords.
ghost use Rattle.std.specs.Prelude.{◌≡◌, ◌≤◌, ◌-◌, ◌==◌, [], map, length, get_or, IfOk, IfSome};
ghost use Rattle.std.specs.List.{slice_split};

use crate::print::bad_line;
use std::alloc::{AllocError, Global};
use std::io;
use std::io::Read;

// So much of an input is read.
const LONGEST: u64 = 65_536;

pub fn input(rt: &(impl Input + AllocGlobal)) -> io::Result<Vec<u8>> {
    let mut bytes = Vec::new(rt.alloc());
    rt.reader().take(LONGEST).read_to_end(&mut bytes)?;
    Ok(bytes)
}

// An input's lines are its parts between these.
pub fn ends_line(byte: &u8) -> bool
    ensures { result ≡ (byte.now == 10) }
{
    *byte == b'\n'
}

// All lines of an input, of which there is at least one. The programs go through an input part by part and do without this Vec.
pub fn lines(alloc: Global, input: &[u8]) -> Result<Vec<Line<'_>>, AllocError>
    ensures { IfOk result (λ lines. map (λ line. line.text.now) lines.items ≡ slice_split (λ byte. byte == 10) input.now) }
{
    input
        .split(ends_line)
        .map(|text| Line { text })
        .collect(alloc)
}

// The first of some lines, and an empty one where there is none.
pub fn first<'a>(lines: &[Line<'a>]) -> Line<'a>
    ensures { result.text.now ≡ get_or (map (λ line. line.text.now) lines.now) 0 [] }
{
    lines.first().copied().unwrap_or(Line { text: &[] })
}

// The first line of an input, up to the byte that ends it.
pub fn first_line(input: &[u8]) -> Line<'_>
    ensures { length result.text.now ≤ length input.now }
{
    let end = input.iter().position(ends_line).unwrap_or(input.len());
    Line {
        text: &input[..end],
    }
}

pub fn is_blank(byte: &u8) -> bool {
    *byte == b' '
}

// A text up to its first blank, and what follows that; nothing follows where it has none.
pub fn cut(text: &[u8]) -> (&[u8], &[u8])
    ensures { length result.1.now ≤ length text.now - 1 }
{
    match text.iter().position(is_blank) {
        Some(blank) => (&text[..blank], &text[blank + 1..]),
        None => (text, &[]),
    }
}

// A line, or its end from a field on. The keyword is field 0. It has bytes and no `str`, since an input that is no text is read as well.
#[derive(Clone, Copy)]
pub struct Line<'a> {
    pub text: &'a [u8],
}

impl<'a> Line<'a> {
    // The keyword that begins with the line's first letter. Beside each stands the number of fields that its lines have, `None` for any. Of a
    // comment, of what is to be printed as it stands and of a bad line there is none.
    pub fn keyword(
        self,
        rt: &impl Print,
        keywords: &[(&'static str, Option<usize>)],
    ) -> io::Result<Option<&'static str>>
        ensures { IfOk result (λ found. IfSome found (λ name. get_or name.now 0 0 ≡ get_or self.entry.text.now 0 0)) }
    {
        match self.text {
            [] | [b'#', ..] => return Ok(None),
            [b'"', heading @ ..] => rt.write_all(heading)?,
            [first, ..] => {
                for (name, fields) in keywords {
                    if name.as_bytes().first() == Some(first)
                        && fields.is_none_or(|n| n == self.fields())
                    {
                        return Ok(Some(*name));
                    }
                }
                bad_line(rt)?;
            }
        }
        Ok(None)
    }

    // How many fields there are behind the keyword.
    fn fields(self) -> usize {
        self.text.iter().filter(|byte| is_blank(byte)).count()
    }

    // The line from field k on; empty where it has fewer.
    pub fn from_field(self, k: usize) -> Line<'a>
        ensures { length result.text.now ≤ length self.entry.text.now }
    {
        let mut text = self.text;
        for _ in 0..k {
            text = cut(text).1;
        }
        Line { text }
    }
}

#[cfg(test)]
mod tests {
    use super::*;
    use std::test::Fail;

    #[test]
    fn gives_all_lines(rt: HostRuntime) -> Result<(), Fail> {
        let lines = lines(rt.alloc(), b"image 0d 00\n\n# no end")?;
        assert_eq!(rt; lines.len(), 3);
        assert_eq!(rt; lines[0].text, b"image 0d 00".as_slice());
        assert_eq!(rt; lines[1].text, b"".as_slice());
        assert_eq!(rt; lines[2].text, b"# no end".as_slice());
        Ok(())
    }

    #[test]
    fn ends_with_an_empty_line(rt: HostRuntime) -> Result<(), Fail> {
        assert_eq!(rt; lines(rt.alloc(), b"")?.len(), 1);
        let lines = lines(rt.alloc(), b"a\n")?;
        assert_eq!(rt; lines.len(), 2);
        assert_eq!(rt; lines[1].text, b"".as_slice());
        Ok(())
    }

    #[test]
    fn gives_the_first_of_some_lines(rt: HostRuntime) -> Result<(), Fail> {
        let input = b"run 1 2\nimage";
        let lines = lines(rt.alloc(), input)?;
        assert_eq!(rt; first(&lines).text, b"run 1 2".as_slice());
        assert_eq!(rt; first(&lines[1..]).text, b"image".as_slice());
        assert_eq!(rt; first(&lines[2..]).text, b"".as_slice());
        assert_eq!(rt; first_line(input).text, first(&lines).text);
        Ok(())
    }
}
