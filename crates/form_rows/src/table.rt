// The row of a form.
ghost use Rattle.std.specs.Prelude.{◌≡◌, ◌≢◌, List, ℕ, AllPairs, IfOk, OnOk};
ghost use Rattle.t_base.specs.declared.basics.Var.{Var};
ghost use Rattle.t_forms.specs.Data.{Datum, items_of};
ghost use Rattle.t_forms.specs.Names.{Meaning, Scope as SpecScope};
ghost use Rattle.t_forms.specs.Held.{Held, IsScope, Extends, vars_of};
ghost use Rattle.t_rows.specs.Given.{IsRow};
ghost use Rattle.t_rows.specs.Lists.{Grows, AreItems};
ghost use Rattle.t_rows.specs.Rows.{name_row, word_row, items_row, row};
ghost use Rattle.t_rows.specs.Given.{IsRowOrNext};
ghost use Rattle.form_rows.specs.Meant.{MeansAs};
ghost use Rattle.form_rows.specs.Sorts.{IsSort, sort_of};

use crate::calls::{call_row, meaning_of};
use crate::definitions::inner_definition;
use crate::object::object_row;
use crate::set::set_row;
use binding_rows::{do_row, iterate_row, labels_row, let_row, let_star_row, locative_row};
use choice_rows::{and_row, case_row, cond_row, or_node, or_row};
use t_base::{Memory, Names, Prim, Span};
use t_forms::{Form, Forms, LocalName, Meant, Scope};
use t_objects::Word;
use t_rows::lists::{items_of, span_of, split, word_of};
use t_rows::nodes::{bad, no_row, plain_node, stands_for_atom};
use t_rows::words::{block_row, catch_row, if_row, lambda_row, quote_row};
use t_rows::{Row, Shape, SyntaxKind};

/// What a form is.
#[derive(Clone, Copy)]
enum Sort {
    Pair,
    Name(LocalName),
    /// A reserved word, or the operator that LIST leaves, as an expression.
    Reserved,
    Builtin(Prim),
    Operation(u32),
    Constant,
}

fn sort_of(form: &Form) -> Sort
    ensures { result ≡ sort_of form.now }
{
    match form {
        Form::Pair { .. } => Sort::Pair,
        Form::Sym(name) => Sort::Name(LocalName::Written(*name)),
        Form::Variable(new) => Sort::Name(LocalName::Made(*new)),
        Form::Word(_) => Sort::Reserved,
        Form::Listing => Sort::Reserved,
        Form::Builtin(p) => Sort::Builtin(*p),
        Form::Operation(o) => Sort::Operation(*o),
        Form::Fix(_) => Sort::Constant,
        Form::Char(_) => Sort::Constant,
        Form::Nil => Sort::Constant,
        Form::True => Sort::Constant,
        Form::Str(_) => Sort::Constant,
    }
}

fn sort_at(forms: &Forms, key: u32) -> Sort
    ensures { (names : List (List ℕ)) (d : Datum) → Held names forms.now key d → IsSort names result d }
{
    match forms.get(key) {
        Some(cell) => sort_of(&cell.form),
        None => Sort::Reserved,
    }
}

/// A name as an expression.
fn name_row(forms: &mut Forms, span: Span, meant: Meant) -> Result<Row, Memory>
    ensures grown { OnOk result (Grows forms.old forms.new) }
    ensures row { (names : List (List ℕ)) (vars : List Var) (m : Meaning) → MeansAs vars meant m → IfOk result (λ r. IsRow names forms.new vars r (name_row span m)) }
{
    match meant {
        Meant::Local(var) => plain_node(forms, Shape::Local(var), &[]),
        Meant::Global { place, .. } => plain_node(forms, Shape::Global(place), &[]),
        Meant::Operation(place) => plain_node(forms, Shape::OpValue(place), &[]),
        Meant::Builtin(p) => plain_node(forms, Shape::BuiltinValue(p), &[]),
        Meant::BuiltinOperation(place) => plain_node(forms, Shape::OpValue(place), &[]),
        Meant::Truth => stands_for_atom(forms, span, Form::True),
        Meant::Listing => {
            let row = bad(forms, SyntaxKind::FreeName, span)?;
            Ok(row)
        }
        Meant::Nothing => {
            let row = bad(forms, SyntaxKind::FreeName, span)?;
            Ok(row)
        }
    }
}

/// The row of a reserved word with items behind it.
fn word_row(
    forms: &mut Forms,
    names: &Names,
    scope: &Scope,
    span: Span,
    items: u32,
    word: Word,
) -> Result<Row, Memory>
    ensures grown { OnOk result (Grows forms.old forms.new) }
    ensures row { (around : SpecScope) (ds : List Datum) → AllPairs (λ a b. a ≢ b) names.now → AreItems names.now forms.old items ds → IsScope names.now scope.now around → IfOk result (λ r. IsRow names.now forms.new (vars_of scope.now) r (word_row around span ds word)) }
{
    match word {
        Word::Quote => quote_row(forms, span, items),
        Word::Lambda => lambda_row(forms, names, span, items),
        Word::If => if_row(forms, span, items),
        Word::Cond => cond_row(forms, span, items),
        Word::And => and_row(forms, span, items),
        Word::Or => or_row(forms, span, items),
        Word::Case => case_row(forms, span, items),
        Word::Block => block_row(forms, span, items),
        Word::Let => let_row(forms, names, span, items),
        Word::LetStar => let_star_row(forms, span, items),
        Word::Labels => labels_row(forms, names, span, items),
        Word::Iterate => iterate_row(forms, span, items),
        Word::Do => do_row(forms, span, items),
        Word::Set => set_row(forms, names, scope, span, items),
        Word::Lset => inner_definition(forms, span, items, Word::Lset),
        Word::Define => inner_definition(forms, span, items, Word::Define),
        Word::Catch => catch_row(forms, span, items),
        Word::Object => object_row(forms, names, scope, span, items),
        Word::DefineOperation => inner_definition(forms, span, items, Word::DefineOperation),
        Word::Locative => locative_row(forms, span, items),
        Word::Else => no_row(forms, span),
        Word::Arrow => no_row(forms, span),
    }
}

/// The row of a pair.
fn form_row(
    forms: &mut Forms,
    names: &Names,
    scope: &Scope,
    span: Span,
    key: u32,
) -> Result<Row, Memory>
    ensures grown { OnOk result (Grows forms.old forms.new) }
    ensures row { (d : Datum) (around : SpecScope) → AllPairs (λ a b. a ≢ b) names.now → Held names.now forms.old key d → IsScope names.now scope.now around → IfOk result (λ r. IsRow names.now forms.new (vars_of scope.now) r (items_row around span (items_of d))) }
{
    match items_of(forms, key) {
        None => no_row(forms, span),
        Some(list) => match split(forms, list) {
            None => no_row(forms, span),
            Some((operator, items)) => match word_of(forms, operator) {
                Some(word) => word_row(forms, names, scope, span, items, word),
                None => call_row(forms, names, scope, span, operator, items),
            },
        },
    }
}

fn row_of(forms: &mut Forms, names: &Names, scope: &Scope, key: u32) -> Result<Row, Memory>
    ensures grown { OnOk result (Grows forms.old forms.new) }
    ensures row { (d : Datum) (around : SpecScope) → AllPairs (λ a b. a ≢ b) names.now → Held names.now forms.old key d → IsScope names.now scope.now around → IfOk result (λ r. IsRow names.now forms.new (vars_of scope.now) r (row around d)) }
{
    let span = span_of(forms, key);
    match sort_at(forms, key) {
        Sort::Pair => form_row(forms, names, scope, span, key),
        Sort::Name(name) => name_row(forms, span, meaning_of(names, scope, name)),
        Sort::Reserved => no_row(forms, span),
        Sort::Builtin(p) => plain_node(forms, Shape::BuiltinValue(p), &[]),
        Sort::Operation(place) => plain_node(forms, Shape::OpValue(place), &[]),
        Sort::Constant => plain_node(forms, Shape::Constant(key), &[]),
    }
}

/// The row of the form at a place, in a scope. Cells are only added. The only error is the want of memory, after which nothing is
/// said of the cells.
pub fn row(forms: &mut Forms, names: &Names, scope: &Scope, key: u32) -> Result<Row, Memory>
    ensures grown { OnOk result (Extends forms.old forms.new) }
    ensures row { (d : Datum) (around : SpecScope) → AllPairs (λ a b. a ≢ b) names.now → Held names.now forms.old key d → IsScope names.now scope.now around → IfOk result (λ r. IsRow names.now forms.new (vars_of scope.now) r (row around d)) }
{
    let row = row_of(forms, names, scope, key)?;
    Ok(row)
}

/// The row of the form at a place, in a scope, or the row of a form with the same span for which it stands. For an OR this spares the cells of
/// the LET between. Cells are only added. The only error is the want of memory, after which nothing is said of the cells.
pub fn row_or_next(forms: &mut Forms, names: &Names, scope: &Scope, key: u32) -> Result<Row, Memory>
    ensures grown { OnOk result (Extends forms.old forms.new) }
    ensures row { (d : Datum) (around : SpecScope) → AllPairs (λ a b. a ≢ b) names.now → Held names.now forms.old key d → IsScope names.now scope.now around → IfOk result (IsRowOrNext names.now forms.new (vars_of scope.now) around d) }
{
    let found = or_node(forms, key)?;
    match found {
        Some(next) => Ok(next),
        None => row(forms, names, scope, key),
    }
}
