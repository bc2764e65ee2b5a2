//! Why the program stops before it has an answer, and the line that it tells then.

ghost use Rattle.std.specs.Prelude.{◌≡◌, ◌∷◌, [], codes};
ghost use Rattle.io_core.specs.Gained.{joined};
ghost use Rattle.fault_lines.specs.Lines as lines;
ghost use Rattle.fault_lines.specs.Lines.{fault_line};
ghost use Rattle.fault_lines.specs.Stops.{told_line, told_refusal};
ghost use Rattle.fault_lines.specs.Told.{IsTold};

use crate::status::Status;
use io_core::{Sink, write_pieces};
use itoa::Buffer;
use net_model::{NameRefusal, Slot, TextKind, Which};

/// Why there is no answer. A name is that of a file.
#[derive(Debug, PartialEq, Eq, Drop)]
pub enum Stop<'a> {
    NoJob,
    Unreadable(&'a str),
    TooLong(&'a str),
    /// The text has a fault of this kind at this line.
    Faulty(&'a str, u64, TextKind),
    BadNames(NameRefusal),
    /// The problem has more bits than the limit.
    TooManyBits,
    Memory,
}

/// Tells a line that is at hand in pieces. Where `err` refuses, nothing more can be told.
pub fn tell<E: Sink>(err: &mut E, pieces: &[&[u8]])
    ensures { IsTold (E.contents err.old) (E.contents err.new) (E.faults err.old) (E.faults err.new) (E.wants err.old) (E.wants err.new)
        (joined pieces.now) }
{
    let _ = write_pieces(err, pieces);
}

/// Tells that a text has a fault at a line.
fn tell_fault<E: Sink>(err: &mut E, name: &str, line: u64, kind: TextKind)
    ensures { IsTold (E.contents err.old) (E.contents err.new) (E.faults err.old) (E.faults err.new) (E.wants err.old) (E.wants err.new)
        (fault_line name.now line kind) }
{
    let mut digits = Buffer::new();
    tell_at_line(
        err,
        name.as_bytes(),
        digits.format(line).as_bytes(),
        kind_name(kind),
    );
}

fn tell_at_line<E: Sink>(err: &mut E, name: &[u8], line: &[u8], kind: &[u8])
    ensures { IsTold (E.contents err.old) (E.contents err.new) (E.faults err.old) (E.faults err.new) (E.wants err.old) (E.wants err.new)
        (lines.line_with (codes "balm: " ∷ name.now ∷ codes ":" ∷ line.now ∷ codes ": " ∷ kind.now ∷ codes "\n" ∷ [])) }
{
    tell(err, &[b"balm: ", name, b":", line, b": ", kind, b"\n"]);
}

/// Tells that names are refused, or that memory ran out over them.
fn tell_names<E: Sink>(err: &mut E, refusal: &NameRefusal)
    ensures { IsTold (E.contents err.old) (E.contents err.new) (E.faults err.old) (E.faults err.new) (E.wants err.old) (E.wants err.new)
        (told_line (told_refusal refusal.now)) }
{
    match refusal {
        NameRefusal::UnknownName(name) => tell_name(err, b"UnknownName", name),
        NameRefusal::RepeatedName(name) => tell_name(err, b"RepeatedName", name),
        NameRefusal::InBoth(name) => tell_name(err, b"InBoth", name),
        NameRefusal::ReservedName(name) => tell_name(err, b"ReservedName", name),
        NameRefusal::DomainDiffers(name) => tell_name(err, b"DomainDiffers", name),
        NameRefusal::NotOneVariable(slot) => tell_name(err, b"NotOneVariable", slot_name(*slot)),
        NameRefusal::LettersDiffer(name) => tell_name(err, b"LettersDiffer", name),
        NameRefusal::Memory => tell(err, &[b"balm: out of memory\n"]),
    }
}

fn tell_name<E: Sink>(err: &mut E, kind: &[u8], name: &[u8])
    ensures { IsTold (E.contents err.old) (E.contents err.new) (E.faults err.old) (E.faults err.new) (E.wants err.old) (E.wants err.new)
        (lines.line_with (codes "balm: names: " ∷ kind.now ∷ codes " " ∷ name.now ∷ codes "\n" ∷ [])) }
{
    tell(err, &[b"balm: names: ", kind, b" ", name, b"\n"]);
}

fn slot_name(slot: Slot) -> &'static [u8]
    ensures { result.now ≡ lines.slot_name slot }
{
    match slot {
        Slot::F => b"F",
        Slot::S => b"S",
        Slot::X => b"X",
    }
}

fn limit_name(which: Which) -> &'static [u8]
    ensures { result.now ≡ lines.limit_name which }
{
    match which {
        Which::Bytes => b"Limit Bytes",
        Which::Signals => b"Limit Signals",
        Which::Values => b"Limit Values",
        Which::Columns => b"Limit Columns",
        Which::Rows => b"Limit Rows",
        Which::Bits => b"Limit Bits",
        Which::Letters => b"Limit Letters",
    }
}

fn kind_name(kind: TextKind) -> &'static [u8]
    ensures { result.now ≡ lines.kind_name kind }
{
    match kind {
        TextKind::UnknownDirective => b"UnknownDirective",
        TextKind::BadCount => b"BadCount",
        TextKind::UnknownValue => b"UnknownValue",
        TextKind::RowWidth => b"RowWidth",
        TextKind::EqDomain => b"EqDomain",
        TextKind::DrivenTwice => b"DrivenTwice",
        TextKind::Undriven => b"Undriven",
        TextKind::ResetNotConstant => b"ResetNotConstant",
        TextKind::AccShape => b"AccShape",
        TextKind::NoModel => b"NoModel",
        TextKind::TwiceDefault => b"TwiceDefault",
        TextKind::Limit(which) => limit_name(which),
        TextKind::Hierarchy => b"Hierarchy",
        TextKind::BadName => b"BadName",
        TextKind::BadDomain => b"BadDomain",
        TextKind::BadWidth => b"BadWidth",
        TextKind::BadBit => b"BadBit",
        TextKind::UnknownReset => b"UnknownReset",
        TextKind::MissingWidths => b"MissingWidths",
        TextKind::NoRows => b"NoRows",
        TextKind::BadHeader => b"BadHeader",
        TextKind::BadLetter => b"BadLetter",
    }
}

impl<'a> Stop<'a> {
    ghost use Rattle.fault_lines.specs.Stops.{stop_status, stop_line};
    ghost use Rattle.fault_lines.specs.Told.{IsTold};

    /// The status that the program ends with.
    pub fn status(&self) -> Status
        ensures { result ≡ stop_status self.now }
    {
        match self {
            Stop::NoJob => Status::Usage,
            Stop::Unreadable(_) => Status::ReadFault,
            Stop::TooLong(_) | Stop::Faulty(_, _, TextKind::Limit(_)) | Stop::TooManyBits => {
                Status::Limit
            }
            Stop::BadNames(NameRefusal::Memory) | Stop::Memory => Status::Memory,
            Stop::Faulty(..) | Stop::BadNames(_) => Status::Refused,
        }
    }

    /// Tells the line of this stop.
    pub fn tell<E: Sink>(&self, err: &mut E)
        ensures { IsTold (E.contents err.old) (E.contents err.new) (E.faults err.old) (E.faults err.new) (E.wants err.old) (E.wants err.new)
            (stop_line self.now) }
    {
        match self {
            Stop::NoJob => tell(err, &[b"balm: usage\n"]),
            Stop::Unreadable(name) => tell(err, &[b"balm: cannot read ", name.as_bytes(), b"\n"]),
            Stop::TooLong(name) => tell(err, &[b"balm: ", name.as_bytes(), b": Limit Bytes\n"]),
            Stop::Faulty(name, line, kind) => tell_fault(err, name, *line, *kind),
            Stop::BadNames(refusal) => tell_names(err, refusal),
            Stop::TooManyBits => tell(err, &[b"balm: limit Bits\n"]),
            Stop::Memory => tell(err, &[b"balm: out of memory\n"]),
        }
    }
}
