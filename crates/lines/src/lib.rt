// The lines of the two printers, written into a lent buffer.
#![tactic(auto)]

ghost use Rattle.std.specs.Prelude.{◌+◌, ◌≤◌, ◌<◌, ◌≡◌, length};
ghost use Rattle.basis.specs.Reckoned.{Reckoned};
ghost use Rattle.file_rules.specs.Printers.{decimal, pick_text, response_text};
ghost use Rattle.lines.specs.Lines.{bytes_of};
ghost use Rattle.lines.specs.Fields.{word_text, field_text, line_of, Put};
ghost use Rattle.lines.specs.Promises.{LineLengthIs, WriteLineIs, PutLineIs};

use itoa::write_digits;
use rules::Refusal;
use verdicts::Numbered;

// A line of a printer: what its fields are.
#[derive(Clone, Copy)]
pub enum Line {
    ScheduleHeader,
    ResponseHeader,
    // ticks so far, and the pick, 255 for idle
    Tick(u64, u8),
    // ticks so far, and the index released
    Release(u64, usize),
    // partition, rank, and ticks, 0 for late
    Response(u16, usize, u64),
    // ticks, or count
    End(u64),
    Refused(Refusal),
}

// A line of so many bytes, and what comes next, if anything does.
#[derive(Clone, Copy)]
pub struct Made<C> {
    pub length: usize,
    pub next: Option<C>,
}

// A header is one word.
#[derive(Clone, Copy)]
enum Word {
    ScheduleHeader,
    ResponseHeader,
    End,
    Refused,
    Idle,
    Release,
    Late,
    At,
}

#[derive(Clone, Copy)]
enum Field {
    Word(Word),
    Number(u64),
}

// The fields of a line, in order. A later one has a space before it.
#[derive(Clone, Copy)]
struct Fields {
    first: Field,
    later: [Option<Field>; 3],
}

// A word, byte for byte.
fn bytes(word: Word) -> &'static [u8]
    ensures { result.now ≡ word_text word }
{
    match word {
        Word::ScheduleHeader => b"tick pick",
        Word::ResponseHeader => b"partition task response",
        Word::End => b"end",
        Word::Refused => b"refused",
        Word::Idle => b"idle",
        Word::Release => b"release",
        Word::Late => b"late",
        Word::At => b"at",
    }
}

// How many digits a number has. `as` here and below: there is no `From` of a u32 to a usize, nor of a usize to a u64.
#[tactic(auto, using(crate::proofs::Decimals::digits_counted))]
fn digits(n: u64) -> usize
    ensures { result ≡ length (decimal n) }
{
    n.max(1).ilog10() as usize + 1
}

// How many bytes a field has.
#[tactic(auto, using(crate::proofs::Decimals::digits_most))]
fn field_length(f: Field) -> usize
    ensures { Reckoned 24 (length (field_text f)) result }
{
    match f {
        Field::Word(word) => bytes(word).len(),
        Field::Number(n) => digits(n),
    }
}

// Writes a field to a place in the buffer, and gives the place after it.
#[tactic(auto, using(crate::proofs::Decimals::same_digits, crate::proofs::Puts::put_copied, crate::proofs::Puts::put_digits))]
fn put_field(f: Field, buf: &mut [u8], at: usize) -> usize
    requires { at + length (field_text f) ≤ length buf.old }
    ensures { Put at (field_text f) buf.old buf.new result }
{
    let end = at + field_length(f);
    match f {
        Field::Word(word) => buf[at..end].copy_from_slice(bytes(word)),
        Field::Number(n) => {
            write_digits(n, buf, end);
        }
    }
    end
}

// How many bytes a line of these fields has.
#[tactic(auto, using(crate::proofs::Parts::count_begins, crate::proofs::Parts::count_ends))]
fn fields_length(f: Fields) -> usize
    ensures { result ≡ length (line_of f) }
{
    let mut length = field_length(f.first) + 1;
    for later in f.later {
        if let Some(field) = later {
            length += 1 + field_length(field);
        }
    }
    length
}

// Writes the fields of a line, and its end.
#[tactic(auto, using(crate::proofs::Parts::first_room, crate::proofs::Parts::place_there, crate::proofs::Parts::next_room, crate::proofs::Parts::put_begins))]
fn put_fields(f: Fields, buf: &mut [u8]) -> usize
    requires { length (line_of f) ≤ length buf.old }
    ensures { Put 0 (line_of f) buf.old buf.new result }
{
    let mut at = put_field(f.first, buf, 0);
    for later in f.later {
        if let Some(field) = later {
            buf[at] = b' ';
            at = put_field(field, buf, at + 1);
        }
    }
    buf[at] = b'\n';
    at + 1
}

// A pick as a field: 255 is idle, as 01 has it.
fn pick_field(pick: u8) -> Field
    ensures { field_text result ≡ pick_text pick }
{
    if pick == 255 {
        return Field::Word(Word::Idle);
    }
    Field::Number(u64::from(pick))
}

// A response as a field: 0 is late, as 01 has it.
fn response_field(ticks: u64) -> Field
    ensures { field_text result ≡ response_text ticks }
{
    if ticks == 0 {
        return Field::Word(Word::Late);
    }
    Field::Number(ticks)
}

// A line as its fields.
#[tactic(auto, unfolding(crate::specs::Lines::bytes_of, crate::specs::Fields::line_of))]
fn fields_of(line: Line) -> Fields
    ensures { line_of result ≡ bytes_of line }
{
    let (first, later) = match line {
        Line::ScheduleHeader => (Field::Word(Word::ScheduleHeader), [None; 3]),
        Line::ResponseHeader => (Field::Word(Word::ResponseHeader), [None; 3]),
        Line::Tick(ticks, pick) => (Field::Number(ticks), [Some(pick_field(pick)), None, None]),
        Line::Release(ticks, index) => {
            let word = Field::Word(Word::Release);
            let index = Field::Number(index as u64);
            (Field::Number(ticks), [Some(word), Some(index), None])
        }
        Line::Response(partition, rank, ticks) => {
            let partition = Field::Number(u64::from(partition));
            let rank = Field::Number(rank as u64);
            (partition, [Some(rank), Some(response_field(ticks)), None])
        }
        Line::End(count) => (
            Field::Word(Word::End),
            [Some(Field::Number(count)), None, None],
        ),
        Line::Refused(refusal) => {
            let n = Numbered::from(refusal);
            let number = Field::Number(u64::from(n.number));
            let at = Field::Word(Word::At);
            let second = Field::Number(n.second as u64);
            (
                Field::Word(Word::Refused),
                [Some(number), Some(at), Some(second)],
            )
        }
    };
    Fields { first, later }
}

// How many bytes a line has, its end among them.
#[tactic(auto, using(crate::proofs::Calls::length_is))]
pub fn line_length(line: Line) -> usize
    ensures { LineLengthIs line result }
{
    fields_length(fields_of(line))
}

// Writes a line to the start of the buffer; the rest of the buffer stays. Refusal 7, before anything is written.
pub fn write_line(line: Line, buf: &mut [u8]) -> Result<usize, Refusal>
    ensures { WriteLineIs line buf.old result buf.new }
{
    let f = fields_of(line);
    let needed = fields_length(f);
    if buf.len() < needed {
        return Err(Refusal::ShortBuffer(needed));
    }
    Ok(put_fields(f, buf))
}

// Writes a line as `write_line` does, and hands on what comes next.
pub fn put_line<C: Copy>(line: Line, next: Option<C>, buf: &mut [u8]) -> Result<Made<C>, Refusal>
    ensures { PutLineIs line next buf.old result buf.new }
{
    let length = write_line(line, buf)?;
    Ok(Made { length, next })
}
