// The line of a refusal, to a writer.
#![tactic(auto)]

ghost use Rattle.std.specs.Prelude.{IfOk, OnErr, OnOk};
ghost use Rattle.std.specs.Io.KnownBytes.{Appends};
ghost use Rattle.rules.specs.Refusals.{refused_as};
ghost use Rattle.file_rules.specs.Printers.{refused_line};
ghost use Rattle.sending.specs.Writing.{AppendsPart};
ghost use Rattle.refusal_printing.specs.Promises.{PrintRefusalIs};

use lines::{Line, write_line};
use rules::Refusal;
use sending::write_whole;
use std::io;
use std::io::Write;

// Writes the line, and answers how many bytes it has. An error is the writer's own, or WriteZero where it takes no more; then it holds a first part of the line.
pub fn print_refusal<W: Write>(to: &mut W, why: Refusal) -> io::Result<usize>
    ensures count { IfOk result (λ n. PrintRefusalIs why n) }
    ensures bytes { OnOk result (Appends (W.contents to.old) (W.contents to.new) (refused_line (refused_as why))) }
    ensures err { OnErr result (AppendsPart (W.contents to.old) (W.contents to.new) (refused_line (refused_as why))) }
{
    // Any line has room in 64 bytes.
    let mut line = [0u8; 64];
    let length = write_line(Line::Refused(why), &mut line).unwrap();
    write_whole(to, &line[..length])?;
    Ok(length)
}
