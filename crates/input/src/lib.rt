// Input read in pieces, for the programs that run cases.
#![tactic(auto)]

ghost use Rattle.std.specs.Prelude.{◌≤◌, length, take};
ghost use Rattle.std.specs.Io.KnownBytes.{Consumes};

use std::io::Read;

// Reads until the buffer is full, the input ends or a read fails, and returns how many bytes stand at the front of the buffer: those that the input gave,
// where it is known what it gives.
// By hand: read_exact does not say how many bytes a short input gave, and read_to_end allocates.
pub fn read_full<R: Read>(input: &mut R, buffer: &mut [u8]) -> usize
    ensures bound { result ≤ length buffer.new }
    ensures bytes { Consumes (R.remaining input.old) (R.remaining input.new) (take result buffer.new) }
{
    let mut done: usize = 0;
    while done < buffer.len() {
        let Ok(more) = input.read(&mut buffer[done..]) else {
            return done;
        };
        if more == 0 {
            return done;
        }
        done = done + more;
    }
    done
}
