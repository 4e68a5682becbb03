//! The lines of a certificate, put one after another.

ghost use Rattle.std.specs.Prelude.{◌≡◌, ℕ, List, [], ◌∷◌, ◌<◌, ◌++◌, All, length, map, codes};
ghost use Rattle.poly_text.specs.Outputs.{Says};
ghost use Rattle.poly_text.specs.Texts.{residue_text};
ghost use Rattle.certificate_io.specs.Certificates.{matrix_of, evidence_of};
ghost use Rattle.certificate_io.specs.Printable.{HasClasses, IsPrintableComb, IsPrintableMember, AreEvidence};
ghost use Rattle.certificate_io.specs.Texts.{ended, spaced, number_line, names_line, matrix_line, polynomial_line, power_line, power_lines, image_line, member_line, evidence_lines};

use crate::evidence::{Evidence, Image, Line};
use alg_core::Name;
use finite_certificate::Power;
use lin_algebra::Matrix;
use poly_module::Poly;
use poly_text::{Output, put_comb, put_monomial, put_number, put_poly, put_residue};

/// Puts a line with a word and a number.
pub(crate) fn put_number_line(output: &mut Output, word: &[u8], n: u64)
    ensures is { (w : List ℕ) → Says output.old w → Says output.new (w ++ ended (number_line word.now n ∷ [])) }
{
    output.put(word);
    output.put(b" ");
    put_number(output, n);
    output.put(b"\n");
}

/// Puts the names, each after a space.
fn put_names(output: &mut Output, names: &[Name])
    ensures is { (w : List ℕ) → Says output.old w → Says output.new (w ++ spaced names.now) }
{
    for i in 0..names.len() {
        let name = &names[i];
        output.put(b" ");
        output.put(name.bytes());
    }
}

/// Puts the line of the variables.
pub(crate) fn put_names_line(output: &mut Output, names: &[Name])
    ensures is { (w : List ℕ) → Says output.old w → Says output.new (w ++ ended (names_line names.now ∷ [])) }
{
    output.put(b"vars");
    put_names(output, names);
    output.put(b"\n");
}

/// Puts the classes modulo p, each after a space.
fn put_residues(output: &mut Output, p: u32, cells: &[u16])
    requires below { All (λ x. x < p) cells.now }
    ensures is { (w : List ℕ) → Says output.old w → Says output.new (w ++ spaced (map (residue_text p) cells.now)) }
{
    for i in 0..cells.len() {
        let cell = &cells[i];
        output.put(b" ");
        put_residue(output, p, *cell);
    }
}

/// Puts the line of a generator.
fn put_matrix_line(output: &mut Output, p: u32, matrix: &Matrix<u16>)
    requires below { All (λ x. x < p) matrix.now.cells.items }
    ensures is { (w : List ℕ) → Says output.old w → Says output.new (w ++ ended (matrix_line p (matrix_of matrix.now) ∷ [])) }
{
    output.put(b"matrix");
    put_residues(output, p, &matrix.cells);
    output.put(b"\n");
}

/// Puts the lines of the generators.
pub(crate) fn put_matrix_lines(output: &mut Output, p: u32, matrices: &[Matrix<u16>])
    requires below { All (λ m. All (λ x. x < p) m.cells.items) matrices.now }
    ensures is { (w : List ℕ) → Says output.old w → Says output.new (w ++ ended (map (matrix_line p) (map matrix_of matrices.now))) }
{
    for i in 0..matrices.len() {
        put_matrix_line(output, p, &matrices[i]);
    }
}

/// Puts a line with a word and a polynomial.
fn put_polynomial_line(
    output: &mut Output,
    word: &[u8],
    p: u32,
    names: &[Name],
    primaries: u64,
    f: &Poly<u16>,
)
    requires below { HasClasses p f.now }
    ensures is { (w : List ℕ) → Says output.old w
        → Says output.new (w ++ ended (polynomial_line word.now p names.now primaries f.now ∷ [])) }
{
    output.put(word);
    output.put(b" ");
    put_poly(output, p, names, primaries, f);
    output.put(b"\n");
}

/// Puts a line with the word for each polynomial.
pub(crate) fn put_polynomial_lines(
    output: &mut Output,
    word: &[u8],
    p: u32,
    names: &[Name],
    primaries: u64,
    polynomials: &[Poly<u16>],
)
    requires below { All (HasClasses p) polynomials.now }
    ensures is { let line = polynomial_line word.now p names.now primaries in
        (w : List ℕ) → Says output.old w → Says output.new (w ++ ended (map line polynomials.now)) }
{
    for i in 0..polynomials.len() {
        put_polynomial_line(output, word, p, names, primaries, &polynomials[i]);
    }
}

/// Puts the line of the power of a variable.
fn put_power_line(
    output: &mut Output,
    p: u32,
    names: &[Name],
    primaries: u64,
    name: &Name,
    power: &Power<u16>,
)
    requires below { HasClasses p power.now.form }
    ensures is { (w : List ℕ) → Says output.old w
        → Says output.new (w ++ ended (power_line p names.now primaries name.now power.now ∷ [])) }
{
    output.put(b"power ");
    output.put(name.bytes());
    output.put(b" ");
    put_number(output, u64::from(power.exponent));
    output.put(b" ");
    put_poly(output, p, names, primaries, &power.form);
    output.put(b"\n");
}

/// Puts a line for each variable and its power.
pub(crate) fn put_power_lines(
    output: &mut Output,
    p: u32,
    names: &[Name],
    primaries: u64,
    powers: &[Power<u16>],
)
    requires below { All (λ x. HasClasses p x.form) powers.now }
    requires named { length powers.now ≡ length names.now }
    ensures is { let lines = power_lines p names.now primaries names.now powers.now in
        (w : List ℕ) → Says output.old w → Says output.new (w ++ ended lines) }
{
    for i in 0..powers.len() {
        let name = &names[i];
        let power = &powers[i];
        put_power_line(output, p, names, primaries, name, power);
    }
}

/// Puts the line of an average. There are `count` secondary invariants.
fn put_image_line(output: &mut Output, p: u32, names: &[Name], count: u64, image: &Image<u16>)
    requires printable { IsPrintableComb p count image.now.comb }
    ensures is { (w : List ℕ) → Says output.old w → Says output.new (w ++ ended (image_line p names.now count image.now ∷ [])) }
{
    output.put(b"image ");
    put_monomial(output, names, &image.mono);
    output.put(b" ");
    put_comb(output, p, &image.comb);
    output.put(b"\n");
}

/// Puts the lines of the averages.
fn put_image_lines(output: &mut Output, p: u32, names: &[Name], count: u64, images: &[Image<u16>])
    requires printable { All (λ x. IsPrintableComb p count x.comb) images.now }
    ensures is { (w : List ℕ) → Says output.old w → Says output.new (w ++ ended (map (image_line p names.now count) images.now)) }
{
    for i in 0..images.len() {
        put_image_line(output, p, names, count, &images[i]);
    }
}

/// Puts a member of the kernel: whether it is moved or fixed, the polynomial, and its combination.
fn put_member(
    output: &mut Output,
    p: u32,
    names: &[Name],
    primaries: u64,
    count: u64,
    member: &Line<u16>,
)
    requires printable { IsPrintableMember p count member.now }
    ensures is { (w : List ℕ) → Says output.old w → Says output.new (w ++ member_line p names.now primaries count member.now) }
{
    match &member.comb {
        None => {
            output.put(b"moved ");
            put_poly(output, p, names, primaries, &member.u);
        }
        Some(comb) => {
            output.put(b"fixed ");
            put_poly(output, p, names, primaries, &member.u);
            output.put(b" ");
            put_comb(output, p, comb);
        }
    }
}

/// Puts the line of a member of the kernel.
fn put_member_line(
    output: &mut Output,
    p: u32,
    names: &[Name],
    primaries: u64,
    count: u64,
    member: &Line<u16>,
)
    requires printable { IsPrintableMember p count member.now }
    ensures is { (w : List ℕ) → Says output.old w → Says output.new (w ++ ended (member_line p names.now primaries count member.now ∷ [])) }
{
    put_member(output, p, names, primaries, count, member);
    output.put(b"\n");
}

/// Puts the lines of the members of the kernel.
fn put_member_lines(
    output: &mut Output,
    p: u32,
    names: &[Name],
    primaries: u64,
    count: u64,
    members: &[Line<u16>],
)
    requires printable { All (IsPrintableMember p count) members.now }
    ensures is { let line = member_line p names.now primaries count in
        (w : List ℕ) → Says output.old w → Says output.new (w ++ ended (map line members.now)) }
{
    for i in 0..members.len() {
        put_member_line(output, p, names, primaries, count, &members[i]);
    }
}

/// Puts the lines of the evidence.
pub(crate) fn put_evidence_lines(
    output: &mut Output,
    p: u32,
    names: &[Name],
    primaries: u64,
    count: u64,
    evidence: &Evidence<u16>,
)
    requires printable { AreEvidence p count (evidence_of evidence.now) }
    ensures is { let lines = evidence_lines p names.now primaries count (evidence_of evidence.now) in
        (w : List ℕ) → Says output.old w → Says output.new (w ++ ended lines) }
{
    match evidence {
        Evidence::Reynolds(images) => {
            output.put(b"evidence reynolds\n");
            put_image_lines(output, p, names, count, images);
        }
        Evidence::Kernel(members) => {
            output.put(b"evidence kernel\n");
            put_member_lines(output, p, names, primaries, count, members);
        }
    }
}
