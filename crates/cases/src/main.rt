// Runs the cases on standard input: for each its title after `# `, and what `margin` prints of its text.
// A case is two eight-byte little-endian numbers, the bytes of the title and of the text, then the title, then the text.
#![tactic(auto)]

ghost use Rattle.std.specs.Prelude.{◌≤◌, length};

use std::io;
use std::io::Read;

// How many bytes a title and a text have.
#[derive(Clone, Copy)]
struct Sizes {
    title: u64,
    text: u64,
}

// The sizes of the next case; none at the end of the input.
fn next_sizes<R: Read>(input: &mut R) -> Option<Sizes> {
    let mut header = [0u8; 16];
    if input::read_full(input, &mut header) < 16 {
        return None;
    }
    Some(Sizes {
        title: words::word(&header, 0),
        text: words::word(&header, 1),
    })
}

// Reads so many bytes into the front of the buffer, as many as it has room for, and returns how many there were.
fn read_part<R: Read>(n: u64, input: &mut R, buffer: &mut [u8]) -> usize
    ensures { result ≤ length buffer.new }
{
    let most = n.min(buffer.len() as u64) as usize;
    input::read_full(input, &mut buffer[..most])
}

// Reads a title, and prints it as a line after `# `.
fn print_title<R: Read>(
    rt: &impl Print,
    n: u64,
    input: &mut R,
    buffer: &mut [u8],
) -> io::Result<()> {
    let got = read_part(n, input, buffer);
    rt.write_all(b"# ")?;
    rt.write_all(&buffer[..got])?;
    rt.write_all(b"\r\n")
}

// Reads a text, and prints what `margin` does.
fn print_text<R: Read>(
    rt: &impl Print,
    n: u64,
    input: &mut R,
    buffer: &mut [u8],
) -> io::Result<()> {
    let got = read_part(n, input, buffer);
    let mut out = printing::print_buffer();
    let Ok(bytes) = printing::print_file(&buffer[..got], &mut out) else {
        return Ok(());
    };
    rt.write_all(&out[..bytes])
}

// One case.
fn run_case<R: Read>(rt: &impl Print, sizes: Sizes, input: &mut R) -> io::Result<()> {
    let mut buffer = printing::file_buffer();
    print_title(rt, sizes.title, input, &mut buffer)?;
    print_text(rt, sizes.text, input, &mut buffer)
}

fn main(rt: HostRuntime) -> io::Result<()> {
    let mut input = rt.reader();
    for _ in 0..4000 {
        let Some(sizes) = next_sizes(&mut input) else {
            return Ok(());
        };
        run_case(&rt, sizes, &mut input)?;
    }
    Ok(())
}
