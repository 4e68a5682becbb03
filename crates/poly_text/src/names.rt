ghost use Rattle.std.specs.Prelude.{IsTrue, All};
ghost use Rattle.alg_core.specs.Names.{is_name};

use alg_core::Name;
use std::marker::Model;

/// The variables of a text, in the order of the exponents: first the names, then `@1`, `@2`, .. as many as there are
/// primary invariants, then `$1`, `$2`, .. as many as there are irreducible generators. None says that the sign does
/// not belong in the text.
#[derive(Debug, Drop)]
pub struct Names {
    pub vars: Vec<Name>,
    pub primaries: Option<u64>,
    pub irreducibles: Option<u64>,
}

impl Model for Names {
    ghost use Rattle.poly_text.specs.VariableNames.{VariableNames};

    ghost Value = { VariableNames };

    ghost view = { λ n. record { vars = n.vars.items; primaries = n.primaries; irreducibles = n.irreducibles } };
}

impl Names {
    /// Tells of all names what each one keeps: that it is a name. It does nothing else.
    pub(crate) fn tell(&self)
        ensures names { All (λ w. IsTrue (is_name w)) self.now.vars }
    {
        for i in 0..self.vars.len() {
            let name = &self.vars[i];
            let _ = name.bytes();
        }
    }
}
