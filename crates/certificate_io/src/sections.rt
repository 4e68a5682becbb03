//! The sections of a text: the lines that stand for one part of a certificate.

ghost use Rattle.std.specs.Prelude.{◌≡◌, ◌↔◌, ◌≤◌, ◌<◌, ◌+◌, ◌^◌, ℕ, List, ◌∷◌, ◌++◌, All, length, take, drop, true, if◌then◌else◌};
ghost use Rattle.certificate_io.specs.Parts.{TextParts, lines_in};
ghost use Rattle.certificate_io.specs.Sections.{section_kind, IsIn, Stops, StopsLines, IsSection, HasRoom, HasModuleRoom, HasGeneratorRoom, module_trees, generator_trees, AreHeadingLines, AreModuleLines, AreGeneratorLines};
ghost use Rattle.certificate_io.specs.PartFaults.{heading_end, module_end};
ghost use Rattle.certificate_io.specs.Lines.{shown};
ghost use Rattle.certificate_io.specs.Syntax.{LineTree, kind_of};
ghost use Rattle.certificate_io.specs.declared.line_kind.LineKind.TheVariants as kinds;

use crate::line_kind::LineKind;
use crate::line_text::LineText;

/// Lines of a text, the first of which has this number.
#[derive(Clone, Copy)]
pub(crate) struct Section<'a, 'b> {
    pub first: u64,
    pub lines: &'b [LineText<'a>],
}

/// The lines up to that of the order; of a line that stands alone what follows its first word.
#[derive(Clone, Copy)]
pub(crate) struct HeadingLines<'a, 'b> {
    pub field: &'a [u8],
    pub names: &'a [u8],
    pub matrices: Section<'a, 'b>,
    pub order: &'a [u8],
}

/// The lines after that of the order, up to that of the rank, which has this number.
#[derive(Clone, Copy)]
pub(crate) struct ModuleLines<'a, 'b> {
    pub primaries: Section<'a, 'b>,
    pub lifts: Section<'a, 'b>,
    pub powers: Section<'a, 'b>,
    pub rank: &'a [u8],
    pub rank_line: u64,
}

/// The lines after that of the rank, up to the last, which has this number.
#[derive(Clone, Copy)]
pub(crate) struct GeneratorLines<'a, 'b> {
    pub secondaries: Section<'a, 'b>,
    pub by_kernel: bool,
    pub evidence: Section<'a, 'b>,
    pub irreducibles: Section<'a, 'b>,
    pub words: Section<'a, 'b>,
    pub end_line: u64,
}

/// The kind of the section of a line: the lines of the kernel's members, moved or fixed, are one.
fn section_kind(kind: LineKind) -> LineKind
    ensures is { result ≡ section_kind kind }
{
    match kind {
        LineKind::Moved => LineKind::Fixed,
        other => other,
    }
}

/// How many of the first lines are in a section of this kind.
fn run_length(lines: &[LineText], kind: LineKind) -> usize
    ensures within { result ≤ length lines.now }
    ensures run { All (IsIn kind) (take result lines.now) }
    ensures stop { Stops kind (drop result lines.now) }
{
    for i in 0..lines.len() {
        if section_kind(lines[i].kind) != kind {
            return i;
        }
    }
    lines.len()
}

/// The first lines, as far as they are in a section of this kind, and those after them.
fn split_run<'a, 'b>(
    section: &Section<'a, 'b>,
    kind: LineKind,
) -> (Section<'a, 'b>, Section<'a, 'b>)
    requires room { HasRoom section.now }
    ensures is { (i : ℕ) (ls ms : List LineTree) → IsSection i (ls ++ ms) section.now → All (λ l. section_kind (kind_of l) ≡ kind) ls → StopsLines kind ms
        → IsSection i ls result.0 × IsSection (i + length ls) ms result.1 }
    ensures room { HasRoom result.0 × HasRoom result.1 }
{
    let n = run_length(section.lines, kind);
    let (run, others) = section.lines.split_at(n);
    let first = section.first + n as u64;
    (
        Section {
            first: section.first,
            lines: run,
        },
        Section {
            first,
            lines: others,
        },
    )
}

/// What follows the first word of the first line, and the lines after it.
fn split_line<'a, 'b>(section: &Section<'a, 'b>) -> (&'a [u8], Section<'a, 'b>)
    requires room { HasRoom section.now }
    ensures is { (i : ℕ) (l : LineTree) (ls : List LineTree) → IsSection i (l ∷ ls) section.now → (result.0.now ≡ (shown l).1) × IsSection (i + 1) ls result.1 }
    ensures room { HasRoom result.1 }
{
    if section.lines.is_empty() {
        return (b"".as_slice(), *section);
    }
    let (line, others) = section.lines.split_at(1);
    let first = section.first + 1;
    (
        line[0].tail,
        Section {
            first,
            lines: others,
        },
    )
}

/// Whether the first line is of this kind.
fn begins_with(section: &Section, kind: LineKind) -> bool
    ensures is { (i : ℕ) (l : LineTree) (ls : List LineTree) → IsSection i (l ∷ ls) section.now → (result ≡ true) ↔ (kind_of l ≡ kind) }
{
    !section.lines.is_empty() && section.lines[0].kind == kind
}

/// The lines up to that of the order, and those after it.
pub(crate) fn heading_lines<'a, 'b>(
    rest: &Section<'a, 'b>,
) -> (HeadingLines<'a, 'b>, Section<'a, 'b>)
    requires room { HasRoom rest.now }
    ensures is { (t : TextParts) → IsSection 1 (lines_in t) rest.now → AreHeadingLines t result.0 × IsSection (heading_end t + 1) (module_trees t) result.1 }
    ensures room { HasRoom result.0.matrices × HasRoom result.1 }
{
    let (_, rest) = split_line(rest);
    let (field, rest) = split_line(&rest);
    let (names, rest) = split_line(&rest);
    let (matrices, rest) = split_run(&rest, LineKind::Matrix);
    let (order, rest) = split_line(&rest);
    let heading = HeadingLines {
        field,
        names,
        matrices,
        order,
    };
    (heading, rest)
}

/// The lines after that of the order, up to that of the rank, and those after it.
pub(crate) fn module_lines<'a, 'b>(rest: &Section<'a, 'b>) -> (ModuleLines<'a, 'b>, Section<'a, 'b>)
    requires room { HasRoom rest.now }
    ensures is { (t : TextParts) → IsSection (heading_end t + 1) (module_trees t) rest.now → AreModuleLines t result.0 × IsSection (module_end t + 1) (generator_trees t) result.1 }
    ensures room { HasModuleRoom result.0 × HasRoom result.1 }
{
    let (primaries, rest) = split_run(rest, LineKind::Primary);
    let (lifts, rest) = split_run(&rest, LineKind::Lift);
    let (powers, rest) = split_run(&rest, LineKind::Power);
    let rank_line = rest.first;
    let (rank, rest) = split_line(&rest);
    let module = ModuleLines {
        primaries,
        lifts,
        powers,
        rank,
        rank_line,
    };
    (module, rest)
}

/// The kind of the lines of the evidence.
fn evidence_kind(by_kernel: bool) -> LineKind
    ensures is { result ≡ (if by_kernel then kinds.Fixed else kinds.Image) }
{
    if by_kernel {
        LineKind::Fixed
    } else {
        LineKind::Image
    }
}

/// The lines after that of the rank.
pub(crate) fn generator_lines<'a, 'b>(rest: &Section<'a, 'b>) -> GeneratorLines<'a, 'b>
    requires room { HasRoom rest.now }
    ensures is { (t : TextParts) → IsSection (module_end t + 1) (generator_trees t) rest.now → AreGeneratorLines t result }
    ensures room { HasGeneratorRoom result }
{
    let (secondaries, rest) = split_run(rest, LineKind::Secondary);
    let by_kernel = begins_with(&rest, LineKind::Kernel);
    let (_, rest) = split_line(&rest);
    let (evidence, rest) = split_run(&rest, evidence_kind(by_kernel));
    let (irreducibles, rest) = split_run(&rest, LineKind::Irreducible);
    let (words, rest) = split_run(&rest, LineKind::Word);
    GeneratorLines {
        secondaries,
        by_kernel,
        evidence,
        irreducibles,
        words,
        end_line: rest.first,
    }
}
