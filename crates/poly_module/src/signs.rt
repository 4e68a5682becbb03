ghost use Rattle.std.specs.Prelude.{◌≡◌};
ghost use Rattle.alg_core.specs.Fields.{Has};
ghost use Rattle.poly_module.specs.Signs.{with_sign};

use alg_core::Field;

/// Which sign a vector has in a sum.
#[derive(Clone, Copy, Debug, PartialEq, Eq)]
pub(crate) enum Sign {
    Plus,
    Minus,
}

/// The value with the sign.
pub(crate) fn signed<F: Field>(field: &F, sign: Sign, c: F::Elem) -> F::Elem
    requires has { Has (F.field field.now) c }
    ensures is { result ≡ with_sign (F.field field.now) sign c }
    ensures has { Has (F.field field.now) result }
{
    match sign {
        Sign::Plus => c,
        Sign::Minus => field.neg(c),
    }
}
