ghost use Rattle.std.specs.Prelude.{ℕ, ◌≡◌, ◌↔◌, ◌⊎◌, ◌<◌, ◌≤◌, [], length, map};
ghost use Rattle.std.specs.Prelude.{Ok, Some, IsTrue, IsNone, IsSome, IfSome, IfOk, IfErr, OnOk, OnErr};
ghost use Rattle.std.specs.List.Sorted.{IsPermutation};
ghost use Rattle.alg_core.specs.Keys.{key};
ghost use Rattle.alg_core.specs.Spaces.{over, entries, place, IsPlace};
ghost use Rattle.alg_core.specs.Vectors.{Vect, zero_vector};
ghost use Rattle.poly_module.specs.Degrees.{IsDegree};
ghost use Rattle.poly_module.specs.Modules.{InModule, listed};
ghost use Rattle.poly_module.specs.ReducedLists.{IsReducedBasis};
ghost use Rattle.poly_module.specs.SpaceVectors.{IsPositive, IsVector, AreVectors, IsUpTo, vector_of, vectors_of};
ghost use Rattle.module_groebner.specs.declared.bound.BasisBound.{BasisBound};
ghost use Rattle.module_groebner.specs.HomogeneousLists.{degree_limit, cap_limit, AreHomogeneousUpTo};
ghost use Rattle.module_groebner.specs.BasisBounds.{NothingAbove};
ghost use Rattle.module_groebner.specs.Remainders.{IsRemainder, KeepsDegrees};
ghost use Rattle.module_groebner.specs.Progress.{IsDone, IsUnchanged, left};
ghost use Rattle.module_groebner.specs.Items.{IsWithin, IsCurrent, IsVectorOfItem, ArePairsWith, IsAppended, IsTaken};
ghost use Rattle.module_groebner.specs.Items.{IsLink, IsTreatedItem};
ghost use Rattle.module_groebner.specs.Completions.{SameModule, generated, StandsOver, TreatsGenerator, TreatsPair};
ghost use Rattle.module_groebner.specs.Completions.{Extends, IsOver, members};

use crate::bound::{BasisBound, Which};
use crate::chain::is_pending;
use crate::degrees::{generator_degree, lead_position, pair_degree};
use crate::division::divide;
use crate::interreduction::interreduced;
use crate::pair::{lcm_of_leads, s_vector};
use crate::reduction::leading_term;
use alg_core::{Field, Memory, ModTerm, Mono, Space, TermOrder};
use poly_module::{Vector, copy, degree};
use std::alloc::Global;
use std::marker::Model;

/// The completion of a module that homogeneous vectors generate: a list of members that grows to a
/// Gröbner basis while generators and pairs of members are treated, those of least degree first.
/// (Buchberger's algorithm; Derksen and Kemper, section 1.1.)
#[derive(Drop)]
pub struct Completion<E> {
    alloc: Global,
    weights: Vec<u32>,
    shifts: Vec<u32>,
    cap: u32,
    members: Vec<Vector<E, Mono>>,
    generators: Vec<Vector<E, Mono>>,
    pairs: Vec<(u64, u64)>,
}

/// A generator or a pair of members that is still to treat, by its place from 0.
#[derive(Clone, Copy)]
pub(crate) enum Item {
    Generator(usize),
    Pair(usize),
}

/// An item with its degree.
#[derive(Clone, Copy)]
struct Candidate {
    item: Item,
    degree: u128,
}

/// The candidate, or the one so far if that has no greater degree.
fn lesser(best: Option<Candidate>, item: Item, degree: u128) -> Option<Candidate>
    ensures some { IsSome result }
    ensures one { IfSome result (λ r. (best ≡ Some r) ⊎ ((r.item ≡ item) × (r.degree ≡ degree))) }
    ensures new { IfSome result (λ r. r.degree ≤ degree) }
    ensures old { IfSome result (λ r. IfSome best (λ o. r.degree ≤ o.degree)) }
{
    match best {
        Some(old) if old.degree <= degree => Some(old),
        _ => Some(Candidate { item, degree }),
    }
}

/// The degree of the vector, where it is over the cap.
fn degree_over<F: Field, O: TermOrder>(
    space: &Space<F, O>,
    v: &Vector<F::Elem, Mono>,
    cap: u32,
) -> Option<u64>
    requires vector { IsVector (over F.field O.order space.now) (λ m. m) v.now }
    requires small { let S = over F.field O.order space.now in IsUpTo S degree_limit (vector_of S (λ m. m) v.now) }
    ensures over { let S = over F.field O.order space.now in
        IfSome result (λ d. IsDegree S (vector_of S (λ m. m) v.now) d × (cap < d)) }
    ensures low { let S = over F.field O.order space.now in let u = vector_of S (λ m. m) v.now in
        IsNone result → (u ≡ zero_vector S.field) ⊎ ((d : ℕ) × IsDegree S u d × (d ≤ cap)) }
{
    match degree(space, v) {
        None => None,
        Some(d) => { if d > u64::from(cap) { Some(d) } else { None } }
    }
}

/// What one step of a completion came to.
#[derive(Drop)]
pub enum Step<E> {
    /// Nothing is left to treat.
    Finished,
    /// The current generator or pair has a remainder of a degree over the cap.
    Above(BasisBound<E>),
    /// The current generator or pair was treated.
    More,
}

impl<E> Model for Completion<E> {
    ghost use Rattle.std.specs.Prelude.{map};
    ghost use Rattle.alg_core.specs.Spaces.{entries};
    ghost use Rattle.module_groebner.specs.Progress.{Progress};

    ghost Value = { Progress E };

    ghost view = { λ c. record {
      weights = c.weights.items;
      shifts = c.shifts.items;
      cap = c.cap;
      members = map (entries (λ m. m)) c.members.items;
      generators = map (entries (λ m. m)) c.generators.items;
      pairs = c.pairs.items;
    } };
}

impl<E: Copy> Completion<E> {
    /// An item of least degree of those that are still to treat, if there is one.
    fn current<F: Field<Elem = E>, O: TermOrder>(
        &self,
        space: &Space<F, O>,
    ) -> Result<Option<Item>, Memory>
        requires positive { IsPositive (over F.field O.order space.now) }
        requires stands { StandsOver (over F.field O.order space.now) self.now }
        ensures none { IfOk result (λ o. IsNone o ↔ IsDone self.now) }
        ensures current { IfOk result (λ o. IfSome o (IsCurrent self.now)) }
    {
        let mut best = None;
        'generators: for i in 0..self.generators.len() {
            let generator = &self.generators[i];
            let d = generator_degree(space, generator);
            best = lesser(best, Item::Generator(i), d);
        }
        'pairs: for i in 0..self.pairs.len() {
            let (a, b) = self.pairs[i];
            let left = &self.members[a as usize];
            let right = &self.members[b as usize];
            let d = pair_degree(self.alloc, space, left, right)?;
            best = lesser(best, Item::Pair(i), d);
        }
        match best {
            Some(candidate) => Ok(Some(candidate.item)),
            None => Ok(None),
        }
    }

    /// A remainder by the members of the generator, or of the S-vector of the pair.
    fn remainder<F: Field<Elem = E>, O: TermOrder>(
        &self,
        space: &Space<F, O>,
        item: Item,
    ) -> Result<Vector<E, Mono>, Memory>
        requires positive { IsPositive (over F.field O.order space.now) }
        requires stands { StandsOver (over F.field O.order space.now) self.now }
        requires current { IsCurrent self.now item }
        ensures fits { IfOk result (IsVector (over F.field O.order space.now) (λ m. m)) }
        ensures remainder { let S = over F.field O.order space.now in
            IfOk result (λ r. (v : Vect S.field) × IsVectorOfItem S self.now item v
            × IsRemainder S (members S self.now) v (vector_of S (λ m. m) r) × KeepsDegrees S v (vector_of S (λ m. m) r)) }
    {
        match item {
            Item::Generator(i) => {
                let r = divide(self.alloc, space, &self.generators[i], &self.members)?;
                Ok(r)
            }
            Item::Pair(i) => {
                let (a, b) = self.pairs[i];
                let left = &self.members[a as usize];
                let right = &self.members[b as usize];
                let v = s_vector(self.alloc, space, left, right)?;
                let r = divide(self.alloc, space, &v, &self.members)?;
                Ok(r)
            }
        }
    }

    /// Whether the member at this place links the pair: its lead divides the common multiple of the leads of the two, and
    /// no pair of it and one of them is still to treat.
    fn is_link<F: Field<Elem = E>, O: TermOrder>(
        &self,
        space: &Space<F, O>,
        k: usize,
        pair: (u64, u64),
        common: &ModTerm<Mono>,
    ) -> bool
        requires positive { IsPositive (over F.field O.order space.now) }
        requires stands { StandsOver (over F.field O.order space.now) self.now }
        requires within { k < length self.now.members }
        requires place { IsPlace (over F.field O.order space.now) (place (λ m. m) common.now) }
        ensures link { IsTrue result → IsLink self.now pair k (key (place (λ m. m) common.now)) }
    {
        let member = &self.members[k];
        let lead = leading_term(space, member);
        if !lead.at.divides(common) {
            return false;
        }
        let l = k as u64;
        if l == pair.0 {
            return false;
        }
        if l == pair.1 {
            return false;
        }
        if is_pending(&self.pairs, l, pair.0) {
            return false;
        }
        if is_pending(&self.pairs, l, pair.1) {
            return false;
        }
        true
    }

    /// Whether the item is a pair that a member links. Then it is treated without a division.
    /// (Buchberger's chain criterion; Derksen and Kemper, section 1.1.)
    fn is_linked<F: Field<Elem = E>, O: TermOrder>(
        &self,
        space: &Space<F, O>,
        item: Item,
    ) -> Result<bool, Memory>
        requires positive { IsPositive (over F.field O.order space.now) }
        requires stands { StandsOver (over F.field O.order space.now) self.now }
        requires current { IsCurrent self.now item }
        ensures treated { let S = over F.field O.order space.now in
            IfOk result (λ b. IsTrue b → IsTreatedItem S self.now item) }
    {
        let Item::Pair(i) = item else {
            return Ok(false);
        };
        let pair = self.pairs[i];
        let left = &self.members[pair.0 as usize];
        let right = &self.members[pair.1 as usize];
        let common = lcm_of_leads(self.alloc, space, left, right)?;
        for k in 0..self.members.len() {
            if self.is_link(space, k, pair, &common) {
                return Ok(true);
            }
        }
        Ok(false)
    }

    /// The pairs still to treat, with those that the vector makes as a member after the others.
    fn pairs_with(&self, vector: &Vector<E, Mono>) -> Result<Vec<(u64, u64)>, Memory>
        ensures pairs { IfOk result (λ ps. ArePairsWith self.now (entries (λ m. m) vector.now) ps.items) }
    {
        let mut pairs = Vec::new(self.alloc);
        pairs.extend_from_slice(&self.pairs)?;
        let position = lead_position(vector);
        let last = self.members.len() as u64;
        for i in 0..self.members.len() {
            let member = &self.members[i];
            if lead_position(member) == position {
                pairs.push((i as u64, last))?;
            }
        }
        Ok(pairs)
    }

    /// Appends the vector to the members, unless it is 0, and the pairs that it makes.
    fn append(&mut self, vector: Vector<E, Mono>) -> Result<(), Memory>
        ensures appended { OnOk result (IsAppended self.old self.new (entries (λ m. m) vector)) }
        ensures memory { OnErr result (IsUnchanged self.old self.new) }
    {
        if vector.terms().is_empty() {
            return Ok(());
        }
        let pairs = self.pairs_with(&vector)?;
        self.members.push(vector)?;
        self.pairs = pairs;
        Ok(())
    }

    /// Takes the item off what is still to treat.
    fn take(&mut self, item: Item)
        requires within { IsWithin self.old item }
        ensures taken { IsTaken self.old self.new item }
    {
        match item {
            Item::Generator(i) => {
                let _ = self.generators.swap_remove(i);
            }
            Item::Pair(i) => {
                let _ = self.pairs.swap_remove(i);
            }
        }
    }

    /// Takes the current item, a pair that is treated, off what is still to treat.
    fn pass<F: Field<Elem = E>, O: TermOrder>(&mut self, _space: &Space<F, O>, pair: Item)
        requires stands { StandsOver (over F.field O.order _space.now) self.old }
        requires current { IsCurrent self.old pair }
        requires treated { IsTreatedItem (over F.field O.order _space.now) self.old pair }
        ensures stands { StandsOver (over F.field O.order _space.now) self.new }
        ensures extends { Extends (over F.field O.order _space.now) self.old self.new }
        ensures treats { let S = over F.field O.order _space.now in
            TreatsGenerator S self.old self.new ⊎ TreatsPair S self.old self.new }
        ensures falls { left self.new < left self.old }
    {
        self.take(pair);
    }

    /// A completion of the module of the generators, which are homogeneous, up to the cap: it has no
    /// member yet, and all generators are still to treat.
    pub fn new<F: Field<Elem = E>, O: TermOrder>(
        alloc: Global,
        space: &Space<F, O>,
        gens: &[Vector<E, Mono>],
        cap: u32,
    ) -> Result<Completion<E>, Memory>
        requires positive { IsPositive (over F.field O.order space.now) }
        requires cap { cap ≤ cap_limit }
        requires generators { AreVectors (over F.field O.order space.now) (λ m. m) gens.now }
        requires homogeneous { let S = over F.field O.order space.now in
            AreHomogeneousUpTo S degree_limit (vectors_of S (λ m. m) gens.now) }
        ensures stands { IfOk result (StandsOver (over F.field O.order space.now)) }
        ensures same { let S = over F.field O.order space.now in
            let given = listed S.field (vectors_of S (λ m. m) gens.now) in
            IfOk result (λ c. SameModule S.field given (generated S c)) }
        ensures cap { IfOk result (λ c. c.cap ≡ cap) }
        ensures members { IfOk result (λ c. c.members ≡ []) }
        ensures generators { IfOk result (λ c. IsPermutation (map (entries (λ m. m)) gens.now) c.generators) }
        ensures pairs { IfOk result (λ c. c.pairs ≡ []) }
    {
        let mut weights = Vec::new(alloc);
        weights.extend_from_slice(&space.grading.weights)?;
        let mut shifts = Vec::new(alloc);
        shifts.extend_from_slice(&space.grading.shifts)?;
        let mut generators = Vec::new(alloc);
        for i in 0..gens.len() {
            let generator = &gens[i];
            generators.push(copy(alloc, generator)?)?;
        }
        Ok(Completion {
            alloc,
            weights,
            shifts,
            cap,
            members: Vec::new(alloc),
            generators,
            pairs: Vec::new(alloc),
        })
    }

    /// Treats the current generator or pair, which is one of least degree among those still to treat,
    /// and may then be called again. After Above and after Memory the completion is as it was.
    pub fn advance<F: Field<Elem = E>, O: TermOrder>(
        &mut self,
        space: &Space<F, O>,
    ) -> Result<Step<E>, Memory>
        requires positive { IsPositive (over F.field O.order space.now) }
        requires stands { StandsOver (over F.field O.order space.now) self.old }
        ensures stands { StandsOver (over F.field O.order space.now) self.new }
        ensures extends { Extends (over F.field O.order space.now) self.old self.new }
        ensures finished { result ≡ Ok Step.Finished → IsDone self.old × IsUnchanged self.old self.new }
        ensures done { IsDone self.old → IfOk result (λ step. step ≡ Step.Finished) }
        ensures above { let S = over F.field O.order space.now in
            (b : BasisBound E) → result ≡ Ok (Step.Above b) → IsOver S self.old b × IsUnchanged self.old self.new }
        ensures more { let S = over F.field O.order space.now in
            result ≡ Ok Step.More → TreatsGenerator S self.old self.new ⊎ TreatsPair S self.old self.new }
        ensures falls { result ≡ Ok Step.More → left self.new < left self.old }
        ensures memory { OnErr result (IsUnchanged self.old self.new) }
    {
        let Some(item) = self.current(space)? else {
            return Ok(Step::Finished);
        };
        if self.is_linked(space, item)? {
            self.pass(space, item);
            return Ok(Step::More);
        }
        let remainder = self.remainder(space, item)?;
        if let Some(d) = degree_over(space, &remainder, self.cap) {
            return Ok(Step::Above(BasisBound {
                vector: remainder,
                degree: d,
                which: Which::Ideal,
            }));
        }
        self.append(remainder)?;
        self.take(item);
        Ok(Step::More)
    }

    /// The reduced basis of the module, by falling lead, where nothing is still to treat. Where memory
    /// is refused the completion comes back as it was.
    pub fn finish<F: Field<Elem = E>, O: TermOrder>(
        self,
        space: &Space<F, O>,
    ) -> Result<Vec<Vector<E, Mono>>, Completion<E>>
        requires positive { IsPositive (over F.field O.order space.now) }
        requires stands { StandsOver (over F.field O.order space.now) self }
        requires done { IsDone self }
        ensures fit { IfOk result (λ vs. AreVectors (over F.field O.order space.now) (λ m. m) vs.items) }
        ensures reduced { let S = over F.field O.order space.now in
            IfOk result (λ vs. IsReducedBasis S (generated S self) (vectors_of S (λ m. m) vs.items)) }
        ensures homogeneous { let S = over F.field O.order space.now in
            IfOk result (λ vs. AreHomogeneousUpTo S self.cap (vectors_of S (λ m. m) vs.items)) }
        ensures within { let S = over F.field O.order space.now in
            IfOk result (λ _. NothingAbove S (InModule S.field (generated S self)) self.cap) }
        ensures memory { IfErr result (λ c. IsUnchanged self c) }
        ensures stands { IfErr result (StandsOver (over F.field O.order space.now)) }
    {
        match self.reduced(space) {
            Ok(basis) => Ok(basis),
            Err(_) => Err(self),
        }
    }

    /// The same list as that of finish; the completion stays as it is.
    pub fn reduced<F: Field<Elem = E>, O: TermOrder>(
        &self,
        space: &Space<F, O>,
    ) -> Result<Vec<Vector<E, Mono>>, Memory>
        requires positive { IsPositive (over F.field O.order space.now) }
        requires stands { StandsOver (over F.field O.order space.now) self.now }
        requires done { IsDone self.now }
        ensures fit { IfOk result (λ vs. AreVectors (over F.field O.order space.now) (λ m. m) vs.items) }
        ensures reduced { let S = over F.field O.order space.now in
            IfOk result (λ vs. IsReducedBasis S (generated S self.now) (vectors_of S (λ m. m) vs.items)) }
        ensures homogeneous { let S = over F.field O.order space.now in
            IfOk result (λ vs. AreHomogeneousUpTo S self.now.cap (vectors_of S (λ m. m) vs.items)) }
        ensures within { let S = over F.field O.order space.now in
            IfOk result (λ _. NothingAbove S (InModule S.field (generated S self.now)) self.now.cap) }
    {
        let basis = interreduced(self.alloc, space, &self.members)?;
        Ok(basis)
    }
}
