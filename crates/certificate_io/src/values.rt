//! The values of a text of the grammar: the certificate that it prints, or the first condition that fails.

ghost use Rattle.std.specs.Prelude.{◌≡◌, ◌≤◌, ℕ, List, ◌++◌, All, IfOk, IsTrue, length, map};
ghost use Rattle.alg_core.specs.Names.{is_name};
ghost use Rattle.certificate_io.specs.Certificates.{evidence_of};
ghost use Rattle.certificate_io.specs.Conditions.{IsCertificate, degree_of};
ghost use Rattle.certificate_io.specs.Lines.{line_of, shown};
ghost use Rattle.certificate_io.specs.PartFaults.{degrees_of, plain_of, marked_of, combined_of, worded_of, heading_faults, module_faults, evidence_faults, generator_faults};
ghost use Rattle.certificate_io.specs.Parts as trees;
ghost use Rattle.certificate_io.specs.Parts.{TextParts, EvidenceTree, ImageTree, MemberTree, PowerTree, AreParts, IsEvidenceTree, IsImageTree, IsMemberTree, IsPowerTree, lines_in, parts_of};
ghost use Rattle.certificate_io.specs.ReadParts.{HasSmallTerms, IsReady, IsHeading, IsModule, IsEvidence, AreGenerators, dp_over, block_over, marked_names_of, word_names_of, ArePlain, AreMarked, AnswersPolynomials, AnswersPowers};
ghost use Rattle.certificate_io.specs.Readings.{Answers, CanRead, image_text, member_text, power_text, tails, CanCombine};
ghost use Rattle.certificate_io.specs.Sections.{HasRoom, IsRun, IsEvidenceRun, HasModuleRoom, HasGeneratorRoom, AreHeadingLines, AreModuleLines, AreGeneratorLines};
ghost use Rattle.certificate_io.specs.Spaces.{combination_space, word_space, plain_names, word_names};
ghost use Rattle.certificate_io.specs.Syntax.{IsPolynomial};
ghost use Rattle.certificate_io.specs.Values.{first_fault, nothing_seen};
ghost use Rattle.poly_module.specs.GreatestExponents.{total};
ghost use Rattle.poly_text.proofs.EntrySteps.{field_of};
ghost use Rattle.poly_text.specs.Syntax.{Term as TermTree, spelling};

use crate::certificate::Certificate;
use crate::evidence::Evidence;
use crate::fault::CertFault;
use crate::headings::{characteristic_of, field_of, matrices_of, names_fault, names_of, number_of};
use crate::line_text::LineText;
use crate::polynomials::{images_of, members_of, polynomials_of, powers_of};
use crate::sections::{
    GeneratorLines, HeadingLines, ModuleLines, Section, generator_lines, heading_lines,
    module_lines,
};
use alg_core::{
    BlockOrder, Dp, Field, Grading, Memory, Mono, Monomial, Name, Space, TermOrder, ValueKind,
};
use finite_certificate::Power;
use lin_algebra::Matrix;
use poly_module::Poly;
use poly_text::Names;
use prime_field::PrimeField;
use std::alloc::Global;

/// The problem of a certificate: what its lines up to that of the order tell.
#[derive(Drop)]
pub(crate) struct Heading {
    pub field: PrimeField,
    pub characteristic: u32,
    pub names: Vec<Name>,
    pub matrices: Vec<Matrix<u16>>,
    pub order: u64,
}

/// The primary invariants with their degrees, and the module over them.
#[derive(Drop)]
pub(crate) struct Module {
    pub primaries: Vec<Poly<u16>>,
    pub degrees: Vec<u32>,
    pub lifts: Vec<Poly<u16>>,
    pub powers: Vec<Power<u16>>,
    pub rank: u64,
}

/// The secondary invariants, the evidence, the irreducible generators and the words.
#[derive(Drop)]
pub(crate) struct Generators {
    pub secondaries: Vec<Poly<u16>>,
    pub evidence: Evidence<u16>,
    pub irreducibles: Vec<Poly<u16>>,
    pub words: Vec<Poly<u16>>,
}

/// What polynomials are read in: a space, and the names of its variables.
#[derive(Drop)]
struct Variables<O> {
    space: Space<PrimeField, O>,
    names: Names,
}

/// The sum of the exponents.
fn total(mono: &Mono) -> u32
    requires small { total mono.now ≤ 4096 }
    ensures is { result ≡ total mono.now }
{
    let mut sum = 0;
    for i in 0..mono.len() {
        sum += mono.exp(i);
    }
    sum
}

/// The greatest degree of a term, where each variable has the degree 1; 0 where there is none.
fn degree(p: &Poly<u16>) -> u32
    requires small { HasSmallTerms p.now }
    ensures is { result ≡ degree_of p.now }
{
    let terms = p.terms();
    let mut greatest = 0;
    for i in 0..terms.len() {
        greatest = greatest.max(total(&terms[i].at.mono));
    }
    greatest
}

/// The greatest degrees.
fn degrees(alloc: Global, ps: &[Poly<u16>]) -> Result<Vec<u32>, Memory>
    requires small { All HasSmallTerms ps.now }
    ensures is { IfOk result (λ v. v.items ≡ map degree_of ps.now) }
{
    let mut degrees = Vec::new(alloc);
    for i in 0..ps.len() {
        degrees.push(degree(&ps[i]))?;
    }
    Ok(degrees)
}

/// These names once more.
fn copied(alloc: Global, names: &[Name]) -> Result<Vec<Name>, Memory>
    ensures is { IfOk result (λ v. v.items ≡ names.now) }
    ensures names { IfOk result (λ v. All (λ w. IsTrue (is_name w)) v.items) }
{
    let mut copies = Vec::new(alloc);
    for i in 0..names.len() {
        let name = Name::new(alloc, names[i].bytes())?;
        copies.push(name)?;
    }
    Ok(copies)
}

/// The variables of the invariants.
fn plain(alloc: Global, heading: &Heading) -> Result<Variables<Dp>, Memory>
    requires ready { IsReady heading.now }
    ensures ready { IfOk result (λ v. CanRead (dp_over v.space) v.names) }
    ensures is { (t : TextParts) → IsHeading t heading.now → IfOk result (ArePlain t) }
{
    let space = Space::of_variables(alloc, heading.field, heading.names.len() as u32)?;
    let vars = copied(alloc, heading.names.as_slice())?;
    let names = Names {
        vars,
        primaries: None,
        irreducibles: None,
    };
    Ok(Variables { space, names })
}

/// The variables and the marks `@`, one of each of these degrees.
fn marked(
    alloc: Global,
    heading: &Heading,
    degrees: &[u32],
) -> Result<Variables<BlockOrder>, Memory>
    requires ready { IsReady heading.now }
    ensures ready { IfOk result (λ v. CanRead (block_over v.space) v.names) }
    ensures is { (t : TextParts) → IsHeading t heading.now → degrees.now ≡ degrees_of t t.primaries → IfOk result (AreMarked t) }
{
    let space = Space::with_marks(alloc, heading.field, heading.names.len() as u32, degrees)?;
    let vars = copied(alloc, heading.names.as_slice())?;
    let names = Names {
        vars,
        primaries: Some(degrees.len() as u64),
        irreducibles: None,
    };
    Ok(Variables { space, names })
}

/// The space of the vectors in marks of these degrees at positions of these, by weighted `dp`.
fn combined(
    alloc: Global,
    field: PrimeField,
    degrees: &[u32],
    shifts: &[u32],
) -> Result<Space<PrimeField, Dp>, Memory>
    ensures is { IfOk result (λ s. dp_over s ≡ combination_space (field_of field) degrees.now shifts.now) }
    ensures positions { IfOk result (λ s. CanCombine (dp_over s)) }
{
    let mut weights = Vec::new(alloc);
    weights.extend_from_slice(degrees)?;
    let order = Dp { weights };
    let mut weights = Vec::new(alloc);
    weights.extend_from_slice(degrees)?;
    let mut positions = Vec::new(alloc);
    positions.extend_from_slice(shifts)?;
    let grading = Grading {
        weights,
        shifts: positions,
    };
    Ok(Space {
        field,
        order,
        grading,
    })
}

/// The marks `@` and `$`, one of each of these degrees.
fn worded(
    alloc: Global,
    field: PrimeField,
    primaries: &[u32],
    irreducibles: &[u32],
) -> Result<Variables<Dp>, Memory>
    ensures space { IfOk result (λ v. dp_over v.space ≡ word_space (field_of field) (primaries.now ++ irreducibles.now)) }
    ensures names { IfOk result (λ v. v.names ≡ word_names (length primaries.now) (length irreducibles.now)) }
    ensures ready { IfOk result (λ v. CanRead (dp_over v.space) v.names) }
{
    let mut weights = Vec::new(alloc);
    weights.extend_from_slice(primaries)?;
    weights.extend_from_slice(irreducibles)?;
    let space = combined(alloc, field, weights.as_slice(), &[0])?;
    let names = Names {
        vars: Vec::new(alloc),
        primaries: Some(primaries.len() as u64),
        irreducibles: Some(irreducibles.len() as u64),
    };
    Ok(Variables { space, names })
}

/// The polynomials in the variables of these lines.
fn plain_polynomials(
    alloc: Global,
    heading: &Heading,
    section: &Section,
) -> Result<Vec<Poly<u16>>, CertFault>
    requires ready { IsReady heading.now }
    requires room { HasRoom section.now }
    ensures is { (t : TextParts) → IsHeading t heading.now → (i : ℕ) (xs : List (List TermTree)) → All IsPolynomial xs → IsRun spelling i xs section.now
        → AnswersPolynomials (plain_of t) (plain_names t.names) i xs result }
{
    let variables = plain(alloc, heading)?;
    polynomials_of(
        alloc,
        &variables.space,
        &variables.names,
        section.first,
        section.lines,
    )
}

/// The polynomials in the variables and the marks `@` of these lines.
fn marked_polynomials(
    alloc: Global,
    heading: &Heading,
    degrees: &[u32],
    section: &Section,
) -> Result<Vec<Poly<u16>>, CertFault>
    requires ready { IsReady heading.now }
    requires room { HasRoom section.now }
    ensures is { (t : TextParts) → IsHeading t heading.now → degrees.now ≡ degrees_of t t.primaries
        → (i : ℕ) (xs : List (List TermTree)) → All IsPolynomial xs → IsRun spelling i xs section.now
        → AnswersPolynomials (marked_of t) (marked_names_of t) i xs result }
{
    let variables = marked(alloc, heading, degrees)?;
    polynomials_of(
        alloc,
        &variables.space,
        &variables.names,
        section.first,
        section.lines,
    )
}

/// The powers of the variables of these lines.
fn marked_powers(
    alloc: Global,
    heading: &Heading,
    degrees: &[u32],
    section: &Section,
) -> Result<Vec<Power<u16>>, CertFault>
    requires ready { IsReady heading.now }
    requires room { HasRoom section.now }
    ensures is { (t : TextParts) → IsHeading t heading.now → degrees.now ≡ degrees_of t t.primaries
        → (i : ℕ) (xs : List PowerTree) → All IsPowerTree xs → IsRun power_text i xs section.now
        → AnswersPowers (marked_of t) (marked_names_of t) i xs result }
{
    let variables = marked(alloc, heading, degrees)?;
    powers_of(
        alloc,
        &variables.space,
        &variables.names,
        section.first,
        section.lines,
    )
}

/// The standard monomials and their averages.
fn averages(
    alloc: Global,
    heading: &Heading,
    combined: &Space<PrimeField, Dp>,
    section: &Section,
) -> Result<Evidence<u16>, CertFault>
    requires ready { IsReady heading.now }
    requires positions { CanCombine (dp_over combined.now) }
    requires room { HasRoom section.now }
    requires texts { (xs : List ImageTree) × All IsImageTree xs × (tails section.now.lines.now ≡ map image_text xs) }
    ensures is { (t : TextParts) → IsHeading t heading.now → dp_over combined.now ≡ combined_of t
        → (i : ℕ) (xs : List ImageTree) → All IsImageTree xs → IsRun image_text i xs section.now
        → Answers result (evidence_faults t i (trees.Images xs)) (λ e. IsEvidence t (trees.Images xs) (evidence_of e)) }
{
    let variables = plain(alloc, heading)?;
    let images = images_of(
        alloc,
        &variables.space,
        &variables.names,
        combined,
        section.first,
        section.lines,
    )?;
    Ok(Evidence::Reynolds(images))
}

/// The members of the kernel.
fn members(
    alloc: Global,
    heading: &Heading,
    degrees: &[u32],
    combined: &Space<PrimeField, Dp>,
    section: &Section,
) -> Result<Evidence<u16>, CertFault>
    requires ready { IsReady heading.now }
    requires positions { CanCombine (dp_over combined.now) }
    requires room { HasRoom section.now }
    ensures is { (t : TextParts) → IsHeading t heading.now → degrees.now ≡ degrees_of t t.primaries
        → dp_over combined.now ≡ combined_of t
        → (i : ℕ) (xs : List MemberTree) → All IsMemberTree xs → IsRun member_text i xs section.now
        → Answers result (evidence_faults t i (trees.Kernel xs)) (λ e. IsEvidence t (trees.Kernel xs) (evidence_of e)) }
{
    let variables = marked(alloc, heading, degrees)?;
    let members = members_of(
        alloc,
        &variables.space,
        &variables.names,
        combined,
        section.first,
        section.lines,
    )?;
    Ok(Evidence::Kernel(members))
}

/// The evidence, of secondary invariants of the degrees `shifts`.
fn evidence(
    alloc: Global,
    heading: &Heading,
    degrees: &[u32],
    shifts: &[u32],
    lines: &GeneratorLines,
) -> Result<Evidence<u16>, CertFault>
    requires ready { IsReady heading.now }
    requires room { HasRoom lines.now.evidence }
    requires text { (i : ℕ) × (e : EvidenceTree) × IsEvidenceTree e × IsEvidenceRun i e lines.now.by_kernel lines.now.evidence }
    ensures is { (t : TextParts) → IsHeading t heading.now → degrees.now ≡ degrees_of t t.primaries → shifts.now ≡ degrees_of t t.secondaries
        → (i : ℕ) (e : EvidenceTree) → IsEvidenceTree e → IsEvidenceRun i e lines.now.by_kernel lines.now.evidence
        → Answers result (evidence_faults t i e) (λ r. IsEvidence t e (evidence_of r)) }
{
    let combined = combined(alloc, heading.field, degrees, shifts)?;
    if lines.by_kernel {
        return members(alloc, heading, degrees, &combined, &lines.evidence);
    }
    averages(alloc, heading, &combined, &lines.evidence)
}

/// The words of these lines.
fn words(
    alloc: Global,
    heading: &Heading,
    primaries: &[u32],
    irreducibles: &[u32],
    section: &Section,
) -> Result<Vec<Poly<u16>>, CertFault>
    requires room { HasRoom section.now }
    ensures is { (t : TextParts) → IsHeading t heading.now → primaries.now ≡ degrees_of t t.primaries → irreducibles.now ≡ degrees_of t t.irreducibles
        → (i : ℕ) (xs : List (List TermTree)) → All IsPolynomial xs → IsRun spelling i xs section.now
        → AnswersPolynomials (worded_of t) (word_names_of t) i xs result }
{
    let variables = worded(alloc, heading.field, primaries, irreducibles)?;
    polynomials_of(
        alloc,
        &variables.space,
        &variables.names,
        section.first,
        section.lines,
    )
}

/// The first lines up to that of the order.
fn read_heading(alloc: Global, lines: &HeadingLines) -> Result<Heading, CertFault>
    requires room { HasRoom lines.now.matrices }
    requires text { (t : TextParts) × AreParts t × AreHeadingLines t lines.now }
    ensures ready { IfOk result IsReady }
    ensures is { (t : TextParts) → AreParts t → AreHeadingLines t lines.now → Answers result (heading_faults t) (IsHeading t) }
{
    let characteristic = characteristic_of(lines.field);
    let field = field_of(characteristic)?;
    let names = names_of(alloc, lines.names)?;
    names_fault(names.as_slice())?;
    let Section { first, lines: rows } = lines.matrices;
    let matrices = matrices_of(alloc, characteristic, names.len(), first, rows)?;
    Ok(Heading {
        field,
        characteristic,
        names,
        matrices,
        order: number_of(lines.order),
    })
}

/// The lines after that of the order, up to that of the rank.
fn read_module(alloc: Global, heading: &Heading, lines: &ModuleLines) -> Result<Module, CertFault>
    requires ready { IsReady heading.now }
    requires room { HasModuleRoom lines.now }
    requires text { (t : TextParts) × AreParts t × IsHeading t heading.now × AreModuleLines t lines.now }
    ensures is { (t : TextParts) → AreParts t → IsHeading t heading.now → AreModuleLines t lines.now → Answers result (module_faults t) (IsModule t) }
{
    let primaries = plain_polynomials(alloc, heading, &lines.primaries)?;
    let degrees = degrees(alloc, primaries.as_slice())?;
    let lifts = marked_polynomials(alloc, heading, degrees.as_slice(), &lines.lifts)?;
    let powers = marked_powers(alloc, heading, degrees.as_slice(), &lines.powers)?;
    if powers.len() < heading.names.len() {
        return Err(CertFault::Value {
            line: lines.rank_line,
            kind: ValueKind::Count,
        });
    }
    Ok(Module {
        primaries,
        degrees,
        lifts,
        powers,
        rank: number_of(lines.rank),
    })
}

/// The lines after that of the rank, where the primary invariants have these degrees.
fn read_generators(
    alloc: Global,
    heading: &Heading,
    marks: &[u32],
    lines: &GeneratorLines,
) -> Result<Generators, CertFault>
    requires ready { IsReady heading.now }
    requires room { HasGeneratorRoom lines.now }
    requires text { (t : TextParts) × AreParts t × IsHeading t heading.now × AreGeneratorLines t lines.now }
    ensures is { (t : TextParts) → AreParts t → IsHeading t heading.now → marks.now ≡ degrees_of t t.primaries → AreGeneratorLines t lines.now
        → Answers result (generator_faults t) (AreGenerators t) }
{
    let secondaries = plain_polynomials(alloc, heading, &lines.secondaries)?;
    let shifts = degrees(alloc, secondaries.as_slice())?;
    let evidence = evidence(alloc, heading, marks, shifts.as_slice(), lines)?;
    let irreducibles = plain_polynomials(alloc, heading, &lines.irreducibles)?;
    let others = degrees(alloc, irreducibles.as_slice())?;
    let words = words(alloc, heading, marks, others.as_slice(), &lines.words)?;
    if words.len() != secondaries.len() {
        return Err(CertFault::Value {
            line: lines.end_line,
            kind: ValueKind::Count,
        });
    }
    Ok(Generators {
        secondaries,
        evidence,
        irreducibles,
        words,
    })
}

/// The certificate of the lines of a text.
pub(crate) fn certificate_of(
    alloc: Global,
    lines: &[LineText],
) -> Result<Certificate<u16>, CertFault>
    requires few { length lines.now ≤ 268435456 }
    requires text { (t : TextParts) × AreParts t × (map line_of lines.now ≡ map shown (lines_in t)) }
    ensures is { (t : TextParts) → AreParts t → map line_of lines.now ≡ map shown (lines_in t)
        → Answers result (first_fault 1 nothing_seen (lines_in t)) (λ c. IsCertificate c × (parts_of c ≡ t)) }
{
    let (first, rest) = heading_lines(&Section { first: 1, lines });
    let heading = read_heading(alloc, &first)?;
    let (second, rest) = module_lines(&rest);
    let module = read_module(alloc, &heading, &second)?;
    let third = generator_lines(&rest);
    let generators = read_generators(alloc, &heading, module.degrees.as_slice(), &third)?;
    Ok(Certificate {
        characteristic: heading.characteristic,
        names: heading.names,
        matrices: heading.matrices,
        order: heading.order,
        primaries: module.primaries,
        lifts: module.lifts,
        powers: module.powers,
        rank: module.rank,
        secondaries: generators.secondaries,
        evidence: generators.evidence,
        irreducibles: generators.irreducibles,
        words: generators.words,
    })
}
