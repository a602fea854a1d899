// Reads a file on standard input, and prints its margin, or why it is refused.
#![tactic(auto)]

ghost use Rattle.std.specs.Prelude.{◌≤◌, length, IfOk};

use std::io;
use std::io::Read;

// Reads the input into the front of the buffer, to its end or until the buffer is full, and returns how many bytes there are. A pipe hands over its bytes in
// pieces, so that one read is not enough. A read that fails, the first or a later one, leaves no file; one that a signal interrupts counts as failed.
// By hand: input::read_full keeps what came before a read that fails.
fn read_input<R: Read>(input: &mut R, buffer: &mut [u8]) -> io::Result<usize>
    ensures { IfOk result (λ n. n ≤ length buffer.new) }
{
    let mut n: usize = 0;
    while n < buffer.len() {
        let more = input.read(&mut buffer[n..])?;
        if more == 0 {
            return Ok(n);
        }
        n += more;
    }
    Ok(n)
}

// Prints the margin of a file, or its refusal.
fn print_margin(rt: &(impl Print + Eprint), text: &[u8]) {
    let mut out = printing::print_buffer();
    let Ok(bytes) = printing::print_file(text, &mut out) else {
        return;
    };
    if rt.write_all(&out[..bytes]).is_err() {
        let _ = eprintln!(rt; "margin: standard output could not be written to its end.");
    }
}

// Says that there is no file to print of.
fn say_unread(rt: &impl Eprint) {
    let _ = eprintln!(rt;
        "margin: standard input could not be read to its end, and nothing is printed."
    );
}

fn main(rt: HostRuntime) {
    let mut buffer = printing::file_buffer();
    match read_input(&mut rt.reader(), &mut buffer) {
        Ok(n) => print_margin(&rt, &buffer[..n]),
        Err(_) => say_unread(&rt),
    }
}
