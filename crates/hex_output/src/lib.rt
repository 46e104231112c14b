// What the programs `hex_write` and `hex_read` write, put at the front of an output: the text of an image, the bytes of a text, or one line
// `refused` and the number.
#![tactic(auto)]

ghost use Rattle.text.specs.Buffer.{Put};
ghost use Rattle.hex_output.specs.Output.{refused_line, WritesOutput, ReadsOutput};

use text::put_line;

fn put_refused(output: &mut [u8], number: u8) -> usize
    ensures { Put (refused_line number) output.old 0 result output.new }
{
    put_line(output, 0, b"refused", &[u32::from(number)])
}

// Gives the number of characters.
pub fn write_output(image: &[u8], output: &mut [u8]) -> usize
    ensures { WritesOutput image.now output.old output.new result }
{
    match intel_hex::write(image, output) {
        Ok(n) => n,
        Err(error) => put_refused(output, error.number()),
    }
}

// Gives the number of bytes.
pub fn read_output(text: &[u8], output: &mut [u8]) -> usize
    ensures { ReadsOutput text.now output.old output.new result }
{
    match intel_hex::read(text, output) {
        Ok(n) => n,
        Err(error) => put_refused(output, error.number()),
    }
}
