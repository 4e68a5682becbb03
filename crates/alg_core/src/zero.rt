ghost use Rattle.std.specs.Prelude.{◌≡◌, ◌≢◌, IsTrue, IsFalse};

use crate::Field;

/// Whether a value is the zero of the field.
pub fn is_zero<F: Field>(field: &F, a: F::Elem) -> bool
    ensures yes { IsTrue result → a ≡ (F.field field.now).zero }
    ensures no { IsFalse result → a ≢ (F.field field.now).zero }
{
    a == field.zero()
}
