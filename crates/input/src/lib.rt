// A buffer, filled from a reader. std's `read_exact` wants the whole buffer and its `read_to_end` a heap, and io's `read_full` is for a descriptor, in a library that crates.txt can't list.
#![tactic(auto)]

ghost use Rattle.std.specs.Prelude.{ℕ, ◌≤◌, ◌<◌, length, take, IfOk, OnErr};
ghost use Rattle.std.specs.Io.KnownBytes.{Consumes, IsAtEnd};

use std::io;
use std::io::Read;

// Reads until the buffer is full or the input ends, and answers how many bytes are at its start. An error is the reader's own; then what was read before it is at the buffer's start.
pub fn read_full<R: Read>(from: &mut R, buffer: &mut [u8]) -> io::Result<usize>
    ensures within { IfOk result (λ n. n ≤ length buffer.new) }
    ensures bytes { IfOk result (λ n. Consumes (R.remaining from.old) (R.remaining from.new) (take n buffer.new)) }
    ensures err { OnErr result ((n : ℕ) × Consumes (R.remaining from.old) (R.remaining from.new) (take n buffer.new)) }
    ensures end { IfOk result (λ n. n < length buffer.new → IsAtEnd (R.remaining from.new)) }
{
    let mut filled = 0;
    while filled < buffer.len() {
        let more = from.read(&mut buffer[filled..])?;
        if more == 0 {
            break;
        }
        filled += more;
    }
    Ok(filled)
}
