//! The names that a script declares and uses.

ghost use Rattle.std.specs.Prelude.{◌≡◌, ℕ, List, [], ◌∷◌, ◌++◌, IfOk, OnOk, map};
ghost use Rattle.finvar_text.specs.Conditions.{names_of, matrices_of, first_other, unknown_in, first_unknown, declared_names, matrices};
ghost use Rattle.finvar_text.specs.Declarations.{AreDeclared, names_in};
ghost use Rattle.finvar_text.specs.Syntax.{Matrix};
ghost use Rattle.finvar_text.specs.Trees.{bytes_of, word_of, item_of, script_of};

use crate::syntax::{ItemText, MatrixText, ScriptText};
use alg_core::Memory;
use std::alloc::Global;
use std::collections::{HashMap, HashSet};

/// The names that are declared, the matrices by their names, and the first name that is declared
/// twice.
#[derive(Drop)]
pub(crate) struct Declarations<'b, 'a> {
    names: HashSet<&'a [u8]>,
    pub matrices: HashMap<&'a [u8], &'b MatrixText<'a>>,
    pub twice: Option<&'a [u8]>,
}

impl<'b, 'a> Declarations<'b, 'a> {
    /// Those of the ring and its variables.
    fn of_ring(alloc: Global, script: &ScriptText<'a>) -> Result<Declarations<'b, 'a>, Memory>
        ensures is { let s = script_of script.now in IfOk result (λ d. AreDeclared d (s.ring ∷ s.variables) []) }
    {
        let mut declarations = Declarations {
            names: HashSet::new(alloc),
            matrices: HashMap::new(alloc),
            twice: None,
        };
        declarations.declare(script.ring)?;
        for variable in script.variables.as_slice() {
            declarations.declare(*variable)?;
        }
        Ok(declarations)
    }

    /// Adds a name.
    fn declare(&mut self, name: &'a [u8]) -> Result<(), Memory>
        ensures is { OnOk result ((ws : List (List ℕ)) (ms : List Matrix) → AreDeclared self.old ws ms →
            AreDeclared self.new (ws ++ name.now ∷ []) ms) }
    {
        let is_new = self.names.insert(name)?;
        if !is_new {
            self.twice = self.twice.or(Some(name));
        }
        Ok(())
    }

    /// Adds those of the item.
    fn add(&mut self, item: &'b ItemText<'a>) -> Result<(), Memory>
        ensures is { OnOk result ((ws : List (List ℕ)) (ms : List Matrix) → AreDeclared self.old ws ms →
            AreDeclared self.new (ws ++ names_of (item_of item.now)) (ms ++ matrices_of (item_of item.now))) }
    {
        match item {
            ItemText::Declared(matrix) => {
                self.declare(matrix.name)?;
                self.matrices.insert(matrix.name, matrix)?;
            }
            ItemText::Called(call) => {
                self.declare(call.first)?;
                self.declare(call.second)?;
                self.declare(call.third)?;
            }
            ItemText::Lib(_) | ItemText::Printed { .. } => {}
        }
        Ok(())
    }

    /// The first of the names that is no matrix.
    fn first_other(&self, names: &[&'a [u8]]) -> Option<&'a [u8]>
        ensures is { (ws : List (List ℕ)) (ms : List Matrix) → AreDeclared self.now ws ms →
            word_of result ≡ first_other (names_in ms) (bytes_of names.now) }
    {
        for name in names {
            if !self.matrices.contains_key(*name) {
                return Some(*name);
            }
        }
        None
    }

    /// The first name that the item uses and that is not declared.
    fn unknown_in(&self, item: &ItemText<'a>) -> Option<&'a [u8]>
        ensures is { (ws : List (List ℕ)) (ms : List Matrix) → AreDeclared self.now ws ms →
            word_of result ≡ unknown_in (names_in ms) ws (item_of item.now) }
    {
        match item {
            ItemText::Printed { name, .. } => {
                if self.names.contains(*name) {
                    return None;
                }
                Some(*name)
            }
            ItemText::Called(call) => self.first_other(call.arguments.as_slice()),
            ItemText::Lib(_) | ItemText::Declared(_) => None,
        }
    }
}

/// The declarations of the script, and the first name that is used and not declared before.
pub(crate) fn read_names<'b, 'a>(
    alloc: Global,
    script: &'b ScriptText<'a>,
) -> Result<(Declarations<'b, 'a>, Option<&'a [u8]>), Memory>
    ensures declared { let s = script_of script.now in IfOk result (λ r. AreDeclared r.0 (declared_names s) (matrices s)) }
    ensures unknown { let s = script_of script.now in
        IfOk result (λ r. word_of r.1 ≡ first_unknown [] (s.ring ∷ s.variables) s.items) }
{
    let mut declarations = Declarations::of_ring(alloc, script)?;
    let mut unknown = None;
    for item in script.items.as_slice() {
        unknown = unknown.or(declarations.unknown_in(item));
        declarations.add(item)?;
    }
    Ok((declarations, unknown))
}
