// Bytes, written to a writer. std's `write_all` says nothing of what an error leaves, and io's is for a descriptor, in a library that crates.txt can't list.
#![tactic(auto)]

ghost use Rattle.std.specs.Prelude.{OnErr, OnOk};
ghost use Rattle.std.specs.Io.KnownBytes.{Appends};
ghost use Rattle.sending.specs.Writing.{AppendsPart};

use std::io;
use std::io::{ErrorKind, Write};

// Writes all the bytes. An error is the writer's own, or WriteZero where it takes no more; then a first part of them is written.
pub fn write_whole<W: Write>(to: &mut W, bytes: &[u8]) -> io::Result<()>
    ensures ok { OnOk result (Appends (W.contents to.old) (W.contents to.new) bytes.now) }
    ensures err { OnErr result (AppendsPart (W.contents to.old) (W.contents to.new) bytes.now) }
{
    let mut sent = 0;
    while sent < bytes.len() {
        let more = to.write(&bytes[sent..])?;
        if more == 0 {
            return Err(io::Error::from(ErrorKind::WriteZero));
        }
        sent += more;
    }
    Ok(())
}
