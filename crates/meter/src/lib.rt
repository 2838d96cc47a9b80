// The record reader: a record of a meter file with the next offset, or refusal 8, and its payload as a part of the caller's file.
#![tactic(auto)]

ghost use Rattle.std.specs.Prelude.{◌≡◌};
ghost use Rattle.file_rules.specs.MeterFile.{form};
ghost use Rattle.meter.specs.Forms.{number_of, KindIs, RecordKindIs};
ghost use Rattle.meter.specs.Promises.{ReadRecordIs, PayloadIs, WhyRefusedIs};

use little_endian::two;
use rules::Refusal;

// What a record tells of: a partition, a task, a word or a release. Each has its number in a file.
#[derive(Clone, Copy, PartialEq, Eq)]
pub enum Kind {
    Partition = 1,
    Task = 2,
    Word = 3,
    Release = 4,
}

// The kinds that a meter file may hold, in their numbers, since the reader takes any number as a kind.
pub const METER_KINDS: [u16; 4] = [1, 2, 3, 4];

// A number that no kind has.
#[derive(Clone, Copy)]
pub struct NoKind;

impl TryFrom<u16> for Kind {
    type Error = NoKind;

    ghost try_from_gives = { KindIs };

    #[tactic(auto, unfolding(file_rules::specs::MeterFile::form))]
    fn try_from(number: u16) -> Result<Kind, NoKind> {
        match number {
            1 => Ok(Kind::Partition),
            2 => Ok(Kind::Task),
            3 => Ok(Kind::Word),
            4 => Ok(Kind::Release),
            _ => Err(NoKind),
        }
    }
}

impl From<Kind> for u16 {
    ghost from_gives = { λ kind number. number ≡ number_of kind };

    fn from(kind: Kind) -> u16 {
        kind as u16
    }
}

impl Kind {
    // How long its records are, kind and payload together.
    #[tactic(auto, unfolding(file_rules::specs::MeterFile::form))]
    fn length(self) -> u16
        ensures { result ≡ (form (number_of self)).length }
    {
        match self {
            Kind::Partition | Kind::Task => 8,
            Kind::Word => 6,
            Kind::Release => 4,
        }
    }

    // Words and releases come mixed, so they have one place.
    #[tactic(auto, unfolding(file_rules::specs::MeterFile::form))]
    fn place(self) -> u16
        ensures { result ≡ (form (number_of self)).place }
    {
        match self {
            Kind::Partition => 1,
            Kind::Task => 2,
            Kind::Word | Kind::Release => 3,
        }
    }
}

// The place of the kind with a number, and 0 for no kind: any may come first.
fn place_of(number: u16) -> u16
    ensures { result ≡ (form number).place }
{
    Kind::try_from(number).map_or(0, Kind::place)
}

// A record: its kind, and the offset of the next one.
#[derive(Clone, Copy)]
pub struct Record {
    pub kind: Kind,
    pub next: usize,
}

// The kind of the record at an offset, if there is a whole one, of a kind that the file may hold, with that kind's length, and in order.
// What is asked stands one by one, here and below, as 01 asks for a record: a struct of it would be made for each call.
#[tactic(auto, using(crate::proofs::Records::holds_as, crate::proofs::Records::placed), unfolding(file_rules::specs::MeterFile::is_record))]
fn record_kind(kinds: &[u16], before: u16, file: &[u8], at: usize) -> Option<Kind>
    ensures { RecordKindIs kinds.now before file.now at result }
{
    let end = file.len();
    // so that at + 4 can't wrap
    if end < 4 || end - 4 < at {
        return None;
    }
    let number = two(file, at + 2);
    if !kinds.contains(&number) {
        return None;
    }
    let kind = Kind::try_from(number).ok()?;
    let length = kind.length();
    if two(file, at) != length {
        return None;
    }
    if end < at + 2 + usize::from(length) {
        return None;
    }
    if kind.place() < place_of(before) {
        return None;
    }
    Some(kind)
}

// The record at an offset, after one of the kind before (0 for none). Refusal 8. Kinds are numbers here, since a caller may give any.
#[tactic(auto, using(crate::proofs::Records::limit_passed, crate::proofs::Records::refused_here, crate::proofs::Records::read_here))]
pub fn read_record(kinds: &[u16], before: u16, file: &[u8], at: usize) -> Result<Record, Refusal>
    ensures { ReadRecordIs kinds.now before file.now at result }
{
    if file.len() > 65536 {
        return Err(Refusal::BadRecord(65536));
    }
    let kind = record_kind(kinds, before, file, at).ok_or(Refusal::BadRecord(at))?;
    let next = at + 2 + usize::from(kind.length());
    Ok(Record { kind, next })
}

// Its payload, as that part of the caller's file; an empty part where the record is refused.
#[tactic(auto, using(crate::proofs::Records::told_record, crate::proofs::Records::payload_part))]
pub fn payload<'f>(kinds: &[u16], before: u16, file: &'f [u8], at: usize) -> &'f [u8]
    ensures { PayloadIs kinds.now before file.now at result.now }
{
    let Ok(record) = read_record(kinds, before, file, at) else {
        return &file[..0];
    };
    &file[at + 4..record.next]
}

// Why a record was refused. Of one that was read it is what asking at its next offset would be refused with, at the end of a file.
// Of a record it takes the next offset alone, since a record of any kind may be asked about. Callers leave by `?` or don't ask why:
// this stays for what 01 says of asking past the end, which its promise and its edits hold.
pub fn why_refused(answer: Result<usize, Refusal>) -> Refusal
    ensures { WhyRefusedIs answer result }
{
    match answer {
        Ok(next) => Refusal::BadRecord(next),
        Err(r) => r,
    }
}
