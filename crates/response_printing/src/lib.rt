// The response times of a file's tasks, row by row into a buffer, to a writer. The answer is how many bytes they have.
#![tactic(auto)]

ghost use Rattle.std.specs.Prelude.{◌≡◌, length, IfOk, OnErr, OnOk};
ghost use Rattle.std.specs.Io.KnownBytes.{Appends};
ghost use Rattle.file_rules.specs.Printers.{response_output};
ghost use Rattle.response_lines.specs.declared.Cursor.TheVariants.{Header};
ghost use Rattle.outputs.specs.ResponseMoments.{RowAt};
ghost use Rattle.sending.specs.Writing.{AppendsPart};
ghost use Rattle.response_printing.specs.Promises.{RowsAre, PrintResponseIs};

use refusal_printing::print_refusal;
use response_lines::{Cursor, response_line};
use rules::{Table, Tasks};
use sending::write_whole;
use std::io;
use std::io::Write;
use whole_file::judge_file;

// Row by row into a buffer that holds them all: at most 66 lines.
fn rows_into(t: Table, tasks: Tasks, out: &mut [u8]) -> usize
    requires { (length out.old ≡ 8192) × (RowAt t tasks Header) }
    ensures { RowsAre t tasks out.new result }
{
    let mut next = Some(Cursor::Header);
    let mut used = 0;
    while let Some(cursor) = next {
        // Sound tables and room for any line: no row is refused.
        let made = response_line(t, tasks, cursor, &mut out[used..]).unwrap();
        used += made.length;
        next = made.next;
    }
    used
}

// The response times of a file's tasks, refused or not. An error is the writer's own, or WriteZero where it takes no more; then it holds a first part of the output.
pub fn print_response<W: Write>(to: &mut W, file: &[u8]) -> io::Result<usize>
    ensures count { IfOk result (λ n. PrintResponseIs file.now n) }
    ensures bytes { OnOk result (Appends (W.contents to.old) (W.contents to.new) (response_output file.now)) }
    ensures err { OnErr result (AppendsPart (W.contents to.old) (W.contents to.new) (response_output file.now)) }
{
    // Not `?`: a refused file is no error, its line is the output.
    let held = match judge_file(file) {
        Ok(held) => held,
        Err(why) => return print_refusal(to, why),
    };
    let mut out = [0u8; 8192];
    let used = rows_into(held.table, held.tasks, &mut out);
    write_whole(to, &out[..used])?;
    Ok(used)
}
