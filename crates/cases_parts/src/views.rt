// Views: `view P Q` prints itself, the number of words shown, and the first and the last of them, where the words at the ends hold their
// addresses and a thousand more, the others 5; `lengths A B P Q` is a view of A parameter words and B memory words, all 5.
use cases::Line;
use std::io;

fn print_words(rt: &impl Print, shown: &[u32]) -> io::Result<()> {
    match shown {
        [] => println!(rt; ": 0"),
        [first, ..] => println!(rt; ": {} {first} {}", shown.len(), shown[shown.len() - 1]),
    }
}

fn place(rt: &impl Print, line: Line<'_>, k: usize) -> io::Result<usize> {
    Ok(line.number(rt, k, u64::MAX)? as usize)
}

pub fn view(rt: &impl Print, line: Line<'_>) -> io::Result<()> {
    rt.write_all(line.text)?;
    let p = place(rt, line, 1)?;
    let q = place(rt, line, 2)?;
    let mut parameters = [5; 32];
    parameters[0] = 1000;
    parameters[31] = 1031;
    let mut memory = [5; 992];
    memory[0] = 1032;
    memory[991] = 2023;
    print_words(rt, view::view(&parameters, &memory, p, q))
}

// Of at most 33 and 993 words: of more nothing is printed.
pub fn lengths(rt: &impl Print, line: Line<'_>) -> io::Result<()> {
    let a = place(rt, line, 1)?;
    let b = place(rt, line, 2)?;
    let p = place(rt, line, 3)?;
    let q = place(rt, line, 4)?;
    if a > 33 || b > 993 {
        return Ok(());
    }
    let words = [5; 993];
    print_words(rt, view::view(&words[..a], &words[..b], p, q))
}
