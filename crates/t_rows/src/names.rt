//! Names that forms bind.
ghost use Rattle.std.specs.Prelude.{◌≡◌, ◌≢◌, ◌∷◌, [], ◌++◌, true, if◌then◌else◌, List, ℕ, nat_eq, map, AllPairs, IfOk, OnOk};
ghost use Rattle.std.specs.HashSet.{contains};
ghost use Rattle.std.specs.List.{AllZip, list_any};
ghost use Rattle.t_forms.specs.declared.arena.Cell.{Cell};
ghost use Rattle.t_forms.specs.Data.{Datum, all_of, Binder as SpecBinder, binders_of, names, is_same_new};
ghost use Rattle.t_forms.specs.Held.{Held, AreNames};
ghost use Rattle.t_forms.specs.Lookup.{is_same_key};
ghost use Rattle.t_rows.specs.declared.refusal.SyntaxKind.TheVariants.{ParamTwice};
ghost use Rattle.t_rows.specs.Lists.{AreHeld};
ghost use Rattle.t_rows.specs.Numbers.{number_of_new, number_of_name};
ghost use Rattle.t_rows.specs.Bindings.{IsBinder, IsBinderOf, IsBinding, IsBindingOf, IsAllOf, params_of};
ghost use Rattle.t_rows.specs.Rows.{Binding as SpecBinding, binding_of, bindings_of, binders, refusal, twice};

use crate::lists::{Few, few_items, items_of, keys_of, name_of, span_of};
use crate::refusal::{Refusal, SyntaxKind};
use std::alloc::Global;
use std::collections::HashSet;
use t_base::{Memory, Span};
use t_forms::{Forms, LocalName, New};

/// A name where it is bound or defined.
#[derive(Clone, Copy)]
pub struct Binder {
    pub at: Span,
    pub name: LocalName,
}

/// A name with the form of its value. `place` is the form that the name is.
#[derive(Clone, Copy)]
pub struct Binding {
    pub name: Binder,
    pub value: u32,
    pub place: u32,
}

/// The name that a form is, where it is bound.
pub fn binder_of(forms: &Forms, key: u32) -> Option<Binder>
    ensures { (names : List (List ℕ)) (d : Datum) → Held names forms.now key d → IsBinderOf names result d }
{
    match name_of(forms, key) {
        Some(name) => Some(Binder {
            at: span_of(forms, key),
            name,
        }),
        None => None,
    }
}

/// The names that forms are, if each is one.
pub fn binders_of(forms: &Forms, keys: &[u32]) -> Result<Option<Vec<Binder>>, Memory>
    ensures { (names : List (List ℕ)) (ds : List Datum) → AreHeld names forms.now keys.now ds → IfOk result (λ r. IsAllOf (IsBinder names) r (binders_of ds)) }
{
    let mut binders = Vec::new(forms.alloc());
    'keys: for key in keys {
        match binder_of(forms, *key) {
            Some(binder) => binders.push(binder)?,
            None => return Ok(None),
        }
    }
    Ok(Some(binders))
}

/// The names in a list, if it is a list of names.
pub fn params_of(forms: &Forms, key: u32) -> Result<Option<Vec<Binder>>, Memory>
    ensures { (names : List (List ℕ)) (d : Datum) → Held names forms.now key d → IfOk result (λ r. IsAllOf (IsBinder names) r (params_of d)) }
{
    match items_of(forms, key) {
        None => Ok(None),
        Some(items) => {
            let keys = keys_of(forms, items)?;
            let binders = binders_of(forms, keys.as_slice())?;
            Ok(binders)
        }
    }
}

/// The names alone.
pub fn names_of(alloc: Global, binders: &[Binder]) -> Result<Vec<LocalName>, Memory>
    ensures { (texts : List (List ℕ)) (bs : List SpecBinder) → AllZip (IsBinder texts) binders.now bs → IfOk result (λ ns. AreNames texts ns.items (names bs)) }
{
    let mut names = Vec::with_capacity(alloc, binders.len())?;
    'binders: for binder in binders {
        names.push(binder.name)?;
    }
    Ok(names)
}

fn is_same_new(a: New, b: New) -> bool
    ensures { result ≡ is_same_new a b }
{
    match (a, b) {
        (New::Answer, New::Answer) => true,
        (New::Chosen, New::Chosen) => true,
        (New::Turn, New::Turn) => true,
        (New::Start, New::Start) => true,
        (New::Own, New::Own) => true,
        (New::Content, New::Content) => true,
        (New::Part(i), New::Part(j)) => i == j,
        _ => false,
    }
}

fn is_same(a: LocalName, b: LocalName) -> bool
    ensures { result ≡ is_same_key a b }
{
    match (a, b) {
        (LocalName::Written(a), LocalName::Written(b)) => a.0 == b.0,
        (LocalName::Made(a), LocalName::Made(b)) => is_same_new(a, b),
        _ => false,
    }
}

fn is_among(binders: &[Binder], name: LocalName) -> bool
    ensures { result ≡ list_any (λ b. is_same_key name b.name) binders.now }
{
    binders.iter().any(|b| is_same(name, b.name))
}

/// Refuses a name that stands among those before it.
fn refuse_again(
    refusals: &mut Vec<Refusal>,
    before: &[Binder],
    binder: Binder,
) -> Result<(), Memory>
    ensures { OnOk result (refusals.new.items ≡ refusals.old.items ++ (if list_any (λ b. is_same_key binder.name b.name) before.now then refusal ParamTwice binder.at ∷ [] else [])) }
{
    if is_among(before, binder.name) {
        refusals.push(Refusal {
            kind: SyntaxKind::ParamTwice,
            span: binder.at,
        })?;
        Ok(())
    } else {
        Ok(())
    }
}

/// The second one of each name that stands twice, of few names.
fn twice_of_few(alloc: Global, binders: &[Binder]) -> Result<Vec<Refusal>, Memory>
    ensures { (texts : List (List ℕ)) (bs : List SpecBinder) → AllPairs (λ a b. a ≢ b) texts → AllZip (IsBinder texts) binders.now bs → IfOk result (λ rs. rs.items ≡ twice bs) }
{
    let mut refusals = Vec::new(alloc);
    'binders: for i in 0..binders.len() {
        refuse_again(&mut refusals, &binders[..i], binders[i])?;
    }
    Ok(refusals)
}

/// A number for a new variable, other than that of each other one.
fn number_of_new(new: New) -> u64
    ensures { result ≡ number_of_new new }
{
    match new {
        New::Answer => 1,
        New::Chosen => 3,
        New::Turn => 5,
        New::Start => 7,
        New::Own => 9,
        New::Content => 11,
        New::Part(place) => u64::from(place) * 2 + 13,
    }
}

/// A number for a name, other than that of each other one.
fn number_of_name(name: LocalName) -> u64
    ensures { result ≡ number_of_name name }
{
    match name {
        LocalName::Written(name) => u64::from(name.0) * 2,
        LocalName::Made(new) => number_of_new(new),
    }
}

/// Refuses a name whose number was seen, which it is from now on.
fn refuse_seen(
    refusals: &mut Vec<Refusal>,
    seen: &mut HashSet<u64>,
    binder: Binder,
) -> Result<(), Memory>
    ensures refusals { OnOk result (refusals.new.items ≡ refusals.old.items ++ (if contains nat_eq seen.old (number_of_name binder.name) then refusal ParamTwice binder.at ∷ [] else [])) }
    ensures seen { OnOk result ((n : ℕ) → contains nat_eq seen.new n ≡ (if nat_eq (number_of_name binder.name) n then true else contains nat_eq seen.old n)) }
{
    if seen.insert(number_of_name(binder.name))? {
        Ok(())
    } else {
        refusals.push(Refusal {
            kind: SyntaxKind::ParamTwice,
            span: binder.at,
        })?;
        Ok(())
    }
}

/// The second one of each name that stands twice, of many names.
fn twice_of_many(alloc: Global, binders: &[Binder]) -> Result<Vec<Refusal>, Memory>
    ensures { (texts : List (List ℕ)) (bs : List SpecBinder) → AllPairs (λ a b. a ≢ b) texts → AllZip (IsBinder texts) binders.now bs → IfOk result (λ rs. rs.items ≡ twice bs) }
{
    let mut refusals = Vec::new(alloc);
    let mut seen = HashSet::new(alloc);
    'binders: for i in 0..binders.len() {
        refuse_seen(&mut refusals, &mut seen, binders[i])?;
    }
    Ok(refusals)
}

/// As many names as are compared with each other; of more a set is made.
const FEW: usize = 16;

/// The second one of each name that stands twice. Its time is linear in the names.
pub fn twice(alloc: Global, binders: &[Binder]) -> Result<Vec<Refusal>, Memory>
    ensures { (texts : List (List ℕ)) (bs : List SpecBinder) → AllPairs (λ a b. a ≢ b) texts → AllZip (IsBinder texts) binders.now bs → IfOk result (λ rs. rs.items ≡ twice bs) }
{
    if binders.len() <= FEW {
        twice_of_few(alloc, binders)
    } else {
        twice_of_many(alloc, binders)
    }
}

/// The binding that a form `(x e)` is.
fn binding_of(forms: &Forms, key: u32) -> Option<Binding>
    ensures { (names : List (List ℕ)) (d : Datum) → Held names forms.now key d → IsBindingOf names forms.now result d }
{
    match items_of(forms, key) {
        None => None,
        Some(items) => match few_items(forms, items) {
            Few::Two(place, value) => match binder_of(forms, place) {
                None => None,
                Some(name) => Some(Binding { name, value, place }),
            },
            Few::Zero => None,
            Few::One(_) => None,
            Few::Three(_, _, _) => None,
            Few::More => None,
        },
    }
}

fn all_bindings(forms: &Forms, keys: &[u32]) -> Result<Option<Vec<Binding>>, Memory>
    ensures { (names : List (List ℕ)) (ds : List Datum) → AreHeld names forms.now keys.now ds → IfOk result (λ r. IsAllOf (IsBinding names forms.now) r (all_of (map binding_of ds))) }
{
    let mut bindings = Vec::new(forms.alloc());
    'keys: for key in keys {
        match binding_of(forms, *key) {
            Some(binding) => bindings.push(binding)?,
            None => return Ok(None),
        }
    }
    Ok(Some(bindings))
}

/// The bindings in a list, if it is a list of bindings.
pub fn bindings_of(forms: &Forms, key: u32) -> Result<Option<Vec<Binding>>, Memory>
    ensures { (names : List (List ℕ)) (d : Datum) → Held names forms.now key d → IfOk result (λ r. IsAllOf (IsBinding names forms.now) r (bindings_of d)) }
{
    match items_of(forms, key) {
        None => Ok(None),
        Some(items) => {
            let keys = keys_of(forms, items)?;
            let bindings = all_bindings(forms, keys.as_slice())?;
            Ok(bindings)
        }
    }
}

/// The names that bindings bind.
pub fn bound_in(alloc: Global, bindings: &[Binding]) -> Result<Vec<Binder>, Memory>
    ensures { (texts : List (List ℕ)) (cells : List Cell) (bs : List SpecBinding) → AllZip (IsBinding texts cells) bindings.now bs → IfOk result (λ names. AllZip (IsBinder texts) names.items (binders bs)) }
{
    let mut names = Vec::new(alloc);
    'bindings: for binding in bindings {
        names.push(binding.name)?;
    }
    Ok(names)
}
