ghost use Rattle.std.specs.Prelude.{◌≡◌, IfOk, IsTrue};
ghost use Rattle.alg_core.specs.Names.{is_name};

use crate::Memory;
use std::alloc::Global;
use std::marker::Model;

/// The name of a variable, a matrix or a result: an ASCII letter followed by letters, digits and
/// underscores, and none of the reserved words `LIB`, `ring`, `matrix`, `print`, `invariant_ring`
/// and `dp`. It is seen as its bytes.
#[derive(Debug, Drop)]
pub struct Name {
    text: Vec<u8>,
}

impl Model for Name {
    ghost use Rattle.std.specs.Prelude.{List, ℕ, IsTrue};
    ghost use Rattle.alg_core.specs.Names.{is_name};

    ghost Value = { List ℕ };

    ghost view = { λ n. n.text.items };

    ghost invariant = { λ n. IsTrue (is_name n.text.items) };
}

impl PartialEq for Name {
    ghost use Rattle.std.specs.Str.{bytes_eq};
    ghost use Rattle.std.specs.Cmp.{partial_equiv_from_equiv};
    ghost use Rattle.std.proofs.lemmas.Cmp.{nat_list_eq_equiv};

    ghost eq = { bytes_eq };

    ghost laws = { partial_equiv_from_equiv nat_list_eq_equiv };

    fn eq(&self, other: &Name) -> bool {
        self.text == other.text
    }
}

impl Eq for Name {
    ghost use Rattle.std.proofs.lemmas.Cmp.{nat_list_eq_equiv};

    ghost laws = { nat_list_eq_equiv };
}

impl Name {
    /// The name with these bytes.
    pub fn new(alloc: Global, text: &[u8]) -> Result<Name, Memory>
        requires name { IsTrue (is_name text.now) }
        ensures is { IfOk result (λ n. n ≡ text.now) }
    {
        Ok(Name {
            text: text.iter().copied().collect(alloc)?,
        })
    }

    /// The bytes of the name.
    pub fn bytes(&self) -> &[u8]
        ensures is { result.now ≡ self.now }
        ensures name { IsTrue (is_name self.now) }
    {
        self.text.as_slice()
    }
}
