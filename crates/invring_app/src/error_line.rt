//! The line of a status, in pieces that take no memory.

ghost use Rattle.std.specs.Prelude.{◌≡◌, ◌≢◌, ◌<◌, ◌≤◌, ℕ, length, map, take, OnOk, OnErr, IsErr};
ghost use Rattle.inv_outside.specs.Outside.{Rose, Took};
ghost use Rattle.invring_app.specs.ErrorLines.{piece_text, line_of, bound_pieces, input_pieces, kind_word, place_pieces, status_line, verdict_pieces, which_word};
ghost use Rattle.invring_app.specs.Outcomes.{told_by};
ghost use Rattle.invring_app.specs.declared.status.Status.TheVariants as ends;

use crate::commands::Command;
use crate::status::{BoundFault, Status};
use alg_core::{InputFault, Place, ValueKind};
use cert_check::Verdict;
use inv_outside::{Failed, Sink, write_all};
use module_groebner::Which;
use poly_text::Digits;

/// A piece of a line.
#[derive(Clone, Copy, Debug)]
enum Piece<'a> {
    Text(&'a [u8]),
    Number(u128),
}

/// The pieces of the line of a place.
fn place_line<'a>(place: Place) -> [Piece<'a>; 4]
    ensures is { line_of (map piece_text result) ≡ line_of (place_pieces place) }
{
    let none = Piece::Text(b"");
    match place {
        Place::Byte(at) => [
            Piece::Text(b"syntax place "),
            Piece::Number(u128::from(at)),
            none,
            none,
        ],
        Place::Line(at) => [
            Piece::Text(b"syntax line "),
            Piece::Number(u128::from(at)),
            none,
            none,
        ],
    }
}

/// How a fault of a value is called.
fn kind_piece<'a>(kind: ValueKind) -> Piece<'a>
    ensures is { piece_text result ≡ kind_word kind }
{
    match kind {
        ValueKind::Name => Piece::Text(b"name"),
        ValueKind::Index => Piece::Text(b"index"),
        ValueKind::Factor => Piece::Text(b"factor"),
        ValueKind::Exponent => Piece::Text(b"exponent"),
        ValueKind::Coefficient => Piece::Text(b"coefficient"),
        ValueKind::Degree => Piece::Text(b"degree"),
        ValueKind::Order => Piece::Text(b"order"),
        ValueKind::Field => Piece::Text(b"field"),
        ValueKind::Variables => Piece::Text(b"variables"),
        ValueKind::Twice => Piece::Text(b"twice"),
        ValueKind::Size => Piece::Text(b"size"),
        ValueKind::Power => Piece::Text(b"power"),
        ValueKind::Count => Piece::Text(b"count"),
    }
}

/// The pieces of the line of a faulty input.
fn input_line<'a>(fault: &'a InputFault) -> [Piece<'a>; 4]
    ensures is { line_of (map piece_text result) ≡ line_of (input_pieces fault.now) }
{
    let none = Piece::Text(b"");
    match fault {
        InputFault::Long => [Piece::Text(b"input long"), none, none, none],
        InputFault::Number => [Piece::Text(b"input number"), none, none, none],
        InputFault::Field { p } => [Piece::Text(b"input field "), Piece::Number(*p), none, none],
        InputFault::Variables { n } => {
            [
                Piece::Text(b"input variables "),
                Piece::Number(u128::from(*n)),
                none,
                none,
            ]
        }
        InputFault::Twice { name } => [
            Piece::Text(b"input twice "),
            Piece::Text(name.bytes()),
            none,
            none,
        ],
        InputFault::Unknown { name } => [
            Piece::Text(b"input unknown "),
            Piece::Text(name.bytes()),
            none,
            none,
        ],
        InputFault::Size { name } => [
            Piece::Text(b"input size "),
            Piece::Text(name.bytes()),
            none,
            none,
        ],
        InputFault::NoMatrix => [Piece::Text(b"input none"), none, none, none],
        InputFault::Singular { name } => [
            Piece::Text(b"input singular "),
            Piece::Text(name.bytes()),
            none,
            none,
        ],
        InputFault::Line { line, kind } => [
            Piece::Text(b"input line "),
            Piece::Number(u128::from(*line)),
            Piece::Text(b" "),
            kind_piece(*kind),
        ],
    }
}

/// How a module is called.
fn which_piece<'a>(which: Which) -> Piece<'a>
    ensures is { piece_text result ≡ which_word which }
{
    match which {
        Which::Ideal => Piece::Text(b"ideal "),
        Which::Colon => Piece::Text(b"colon "),
        Which::Graph => Piece::Text(b"graph "),
    }
}

/// The pieces of the line of a bound.
fn bound_line<'a>(fault: &BoundFault) -> [Piece<'a>; 4]
    ensures is { line_of (map piece_text result) ≡ line_of (bound_pieces fault.now) }
{
    let none = Piece::Text(b"");
    match fault {
        BoundFault::TermBound { degree, count } => [
            Piece::Text(b"bound terms "),
            Piece::Number(u128::from(*degree)),
            Piece::Text(b" "),
            Piece::Number(*count),
        ],
        BoundFault::GroupBound { counted } => {
            [
                Piece::Text(b"bound group "),
                Piece::Number(u128::from(*counted)),
                none,
                none,
            ]
        }
        BoundFault::NoPrimary { found, degree } => [
            Piece::Text(b"bound primary "),
            Piece::Number(found.len() as u128),
            Piece::Text(b" "),
            Piece::Number(u128::from(*degree)),
        ],
        BoundFault::BasisBound { which, degree, .. } => [
            Piece::Text(b"bound basis "),
            which_piece(*which),
            Piece::Number(u128::from(*degree)),
            none,
        ],
        BoundFault::RankBound { counted } => {
            [
                Piece::Text(b"bound rank "),
                Piece::Number(u128::from(*counted)),
                none,
                none,
            ]
        }
        BoundFault::TextBound { bytes } => {
            [
                Piece::Text(b"bound text "),
                Piece::Number(u128::from(*bytes)),
                none,
                none,
            ]
        }
    }
}

/// The pieces of the line of a verdict.
fn verdict_line<'a>(verdict: Verdict) -> [Piece<'a>; 4]
    ensures is { line_of (map piece_text result) ≡ line_of (verdict_pieces verdict) }
{
    let none = Piece::Text(b"");
    match verdict {
        Verdict::Accepted => [Piece::Text(b"accepted"), none, none, none],
        Verdict::Rejected { condition, item } => [
            Piece::Text(b"rejected K"),
            Piece::Number(u128::from(condition)),
            Piece::Text(b" "),
            Piece::Number(u128::from(item)),
        ],
    }
}

/// The pieces of the line of a status; of `Done` there is none.
fn line_pieces<'a>(status: &'a Status) -> [Piece<'a>; 4]
    ensures is { status.now ≢ ends.Done → line_of (map piece_text result) ≡ status_line status.now }
{
    let none = Piece::Text(b"");
    match status {
        Status::Done => [none, none, none, none],
        Status::Rejected(verdict) => verdict_line(*verdict),
        Status::Usage => [Piece::Text(b"usage"), none, none, none],
        Status::Syntax(place) => place_line(*place),
        Status::Input(fault) => input_line(fault),
        Status::Bound(fault) => bound_line(fault),
        Status::ReadFault => [Piece::Text(b"read"), none, none, none],
        Status::WriteFault => [Piece::Text(b"write"), none, none, none],
        Status::Memory => [Piece::Text(b"memory"), none, none, none],
    }
}

/// Writes a piece.
fn write_piece<E: Sink>(err: &mut E, piece: Piece) -> Result<(), Failed>
    ensures ok { OnOk result (Took (E.taken err.old) (piece_text piece.entry) (E.taken err.new)) }
    ensures err { OnErr result ((k : ℕ) × (k < length (piece_text piece.entry))
        × Took (E.taken err.old) (take k (piece_text piece.entry)) (E.taken err.new)) }
    ensures cause { IsErr result → Rose (E.faults err.old) (E.faults err.new) }
    ensures later { E.faults err.old ≤ E.faults err.new }
{
    match piece {
        Piece::Text(text) => write_all(err, text),
        Piece::Number(number) => {
            let digits = Digits::of(number);
            write_all(err, digits.as_slice())
        }
    }
}

/// Writes the pieces and a newline.
fn write_line<E: Sink>(err: &mut E, pieces: &[Piece]) -> Result<(), Failed>
    ensures ok { let line = line_of (map piece_text pieces.now) in OnOk result (Took (E.taken err.old) line (E.taken err.new)) }
    ensures err { let line = line_of (map piece_text pieces.now) in
        OnErr result ((k : ℕ) × (k ≤ length line) × Took (E.taken err.old) (take k line) (E.taken err.new)) }
    ensures cause { IsErr result → Rose (E.faults err.old) (E.faults err.new) }
    ensures later { E.faults err.old ≤ E.faults err.new }
{
    for piece in pieces {
        write_piece(err, *piece)?;
    }
    write_all(err, b"\n")
}

/// Writes the line of a status. It takes no memory.
pub fn write_error<E: Sink>(err: &mut E, status: &Status) -> Result<(), Failed>
    ensures ok { OnOk result (Took (E.taken err.old) (status_line status.now) (E.taken err.new)) }
    ensures err { OnErr result ((k : ℕ) × (k ≤ length (status_line status.now))
        × Took (E.taken err.old) (take k (status_line status.now)) (E.taken err.new)) }
    ensures cause { IsErr result → Rose (E.faults err.old) (E.faults err.new) }
    ensures later { E.faults err.old ≤ E.faults err.new }
    ensures quiet { status.now ≡ ends.Done → err.new ≡ err.old }
{
    if let Status::Done = status {
        return Ok(());
    }
    let pieces = line_pieces(status);
    write_line(err, &pieces)
}

/// Writes what the error stream gets of the status of a run of the command: its line, but where `check` rejects,
/// since that stands on the output. It takes no memory.
pub(crate) fn tell<E: Sink>(err: &mut E, command: Command, status: &Status) -> Result<(), Failed>
    ensures ok { OnOk result (Took (E.taken err.old) (told_by command status.now) (E.taken err.new)) }
    ensures err { OnErr result ((k : ℕ) × (k ≤ length (told_by command status.now))
        × Took (E.taken err.old) (take k (told_by command status.now)) (E.taken err.new)) }
    ensures cause { IsErr result → Rose (E.faults err.old) (E.faults err.new) }
    ensures quiet { status.now ≡ ends.Done → err.new ≡ err.old }
{
    if let (Command::Check, Status::Rejected(_)) = (command, status) {
        return Ok(());
    }
    write_error(err, status)
}
