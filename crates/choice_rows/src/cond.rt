//! AND, OR and COND.
ghost use Rattle.std.specs.Prelude.{◌≡◌, ◌∷◌, [], codes, List, ℕ, IfOk, OnOk};
ghost use Rattle.t_base.specs.declared.basics.Var.{Var};
ghost use Rattle.t_forms.specs.Data.{Datum, listed};
ghost use Rattle.t_forms.specs.Held.{Held};
ghost use Rattle.t_rows.specs.Given.{IsRow};
ghost use Rattle.t_rows.specs.Lists.{Grows, AreItems};
ghost use Rattle.t_rows.specs.Rows.{stands_for, word_, and_row, or_row, test_answer, received, is_else, is_arrow, cond_plain, cond_clause, cond_row};

use t_base::{Memory, Span};
use t_forms::{Form, Forms, New};
use t_objects::Word;
use t_rows::Row;
use t_rows::lists::{Few, few_items, items_of, split, word_of};
use t_rows::making::made;
use t_rows::nodes::{no_row, rewritten, stands_for, stands_for_atom};
use t_rows::templates::{Piece, written};
use t_rows::words::body;

/// `(and)`, `(and a)`, `(and a b ..)`
pub fn and_row(forms: &mut Forms, span: Span, items: u32) -> Result<Row, Memory>
    ensures grown { OnOk result (Grows forms.old forms.new) }
    ensures row { (names : List (List ℕ)) (vars : List Var) (ds : List Datum) → AreItems names forms.old items ds → IfOk result (λ r. IsRow names forms.new vars r (and_row span ds)) }
{
    match split(forms, items) {
        None => stands_for_atom(forms, span, Form::True),
        Some((a, others)) => match split(forms, others) {
            None => stands_for(forms, a),
            Some(_) => rewritten(
                forms,
                span,
                &[a],
                &[others],
                &[
                    Piece::Word(Word::If),
                    Piece::Given(0),
                    Piece::Open,
                    Piece::Word(Word::And),
                    Piece::Rest(0),
                    Piece::Close,
                    Piece::Nil,
                ],
            ),
        },
    }
}

/// `(or)`, `(or a)`, `(or a b ..)`. The node of the last one is had at once by `or_node`.
pub fn or_row(forms: &mut Forms, span: Span, items: u32) -> Result<Row, Memory>
    ensures grown { OnOk result (Grows forms.old forms.new) }
    ensures row { (names : List (List ℕ)) (vars : List Var) (ds : List Datum) → AreItems names forms.old items ds → IfOk result (λ r. IsRow names forms.new vars r (or_row span ds)) }
{
    match split(forms, items) {
        None => stands_for_atom(forms, span, Form::Nil),
        Some((a, others)) => match split(forms, others) {
            None => stands_for(forms, a),
            Some(_) => {
                let u = made(forms, span, Form::Variable(New::Answer))?;
                let row = rewritten(
                    forms,
                    span,
                    &[a, u],
                    &[others],
                    &[
                        Piece::Word(Word::Let),
                        Piece::Open,
                        Piece::Open,
                        Piece::Given(1),
                        Piece::Given(0),
                        Piece::Close,
                        Piece::Close,
                        Piece::Open,
                        Piece::Word(Word::If),
                        Piece::Given(1),
                        Piece::Given(1),
                        Piece::Open,
                        Piece::Word(Word::Or),
                        Piece::Rest(0),
                        Piece::Close,
                        Piece::Close,
                    ],
                )?;
                Ok(row)
            }
        },
    }
}

pub fn is_else(word: Option<Word>) -> bool
    ensures { result ≡ is_else word }
{
    matches!(word, Some(Word::Else))
}

fn is_arrow(word: Option<Word>) -> bool
    ensures { result ≡ is_arrow word }
{
    matches!(word, Some(Word::Arrow))
}

/// `(if a (block B ..) (cond c ..))`
fn clause_with_body(
    forms: &mut Forms,
    span: Span,
    test: u32,
    answer: u32,
    others: u32,
) -> Result<Row, Memory>
    ensures grown { OnOk result (Grows forms.old forms.new) }
    ensures row { (names : List (List ℕ)) (vars : List Var) (a : Datum) (bs : List Datum) (cs : List Datum) → Held names forms.old test a → AreItems names forms.old answer bs → AreItems names forms.old others cs → IfOk result (λ r. IsRow names forms.new vars r (stands_for (listed span (word_ span (codes "if") ∷ a ∷ listed span (word_ span (codes "block") ∷ bs) ∷ listed span (word_ span (codes "cond") ∷ cs) ∷ [])))) }
{
    rewritten(
        forms,
        span,
        &[test],
        &[answer, others],
        &[
            Piece::Word(Word::If),
            Piece::Given(0),
            Piece::Open,
            Piece::Word(Word::Block),
            Piece::Rest(0),
            Piece::Close,
            Piece::Open,
            Piece::Word(Word::Cond),
            Piece::Rest(1),
            Piece::Close,
        ],
    )
}

/// What receives the value of a test: `(f u)`.
fn received(forms: &mut Forms, span: Span, receiver: u32) -> Result<u32, Memory>
    ensures grown { OnOk result (Grows forms.old forms.new) }
    ensures made { (names : List (List ℕ)) (f : Datum) → Held names forms.old receiver f → IfOk result (λ key. Held names forms.new key (received span f)) }
{
    let word = word_of(forms, receiver);
    if is_else(word) {
        Ok(receiver)
    } else if is_arrow(word) {
        Ok(receiver)
    } else {
        let call = written(
            forms,
            span,
            &[receiver],
            &[],
            &[Piece::Given(0), Piece::Variable(New::Answer)],
        )?;
        Ok(call)
    }
}

/// `(let ((u a)) (if u (f u) (cond c ..)))`
fn clause_with_receiver(
    forms: &mut Forms,
    span: Span,
    test: u32,
    receiver: u32,
    others: u32,
) -> Result<Row, Memory>
    ensures grown { OnOk result (Grows forms.old forms.new) }
    ensures row { (names : List (List ℕ)) (vars : List Var) (a : Datum) (f : Datum) (cs : List Datum) → Held names forms.old test a → Held names forms.old receiver f → AreItems names forms.old others cs → IfOk result (λ r. IsRow names forms.new vars r (stands_for (test_answer span a (received span f) (listed span (word_ span (codes "cond") ∷ cs))))) }
{
    let call = received(forms, span, receiver)?;
    rewritten(
        forms,
        span,
        &[test, call],
        &[others],
        &[
            Piece::Word(Word::Let),
            Piece::Open,
            Piece::Open,
            Piece::Variable(New::Answer),
            Piece::Given(0),
            Piece::Close,
            Piece::Close,
            Piece::Open,
            Piece::Word(Word::If),
            Piece::Variable(New::Answer),
            Piece::Given(1),
            Piece::Open,
            Piece::Word(Word::Cond),
            Piece::Rest(0),
            Piece::Close,
            Piece::Close,
        ],
    )
}

/// A clause `(a)`, `(a => f)` or `(a B ..)` before others.
fn plain_clause(
    forms: &mut Forms,
    span: Span,
    test: u32,
    answer: u32,
    others: u32,
) -> Result<Row, Memory>
    ensures grown { OnOk result (Grows forms.old forms.new) }
    ensures row { (names : List (List ℕ)) (vars : List Var) (a : Datum) (bs : List Datum) (cs : List Datum) → Held names forms.old test a → AreItems names forms.old answer bs → AreItems names forms.old others cs → IfOk result (λ r. IsRow names forms.new vars r (cond_plain span a bs (listed span (word_ span (codes "cond") ∷ cs)))) }
{
    match few_items(forms, answer) {
        Few::Zero => rewritten(
            forms,
            span,
            &[test],
            &[others],
            &[
                Piece::Word(Word::Or),
                Piece::Given(0),
                Piece::Open,
                Piece::Word(Word::Cond),
                Piece::Rest(0),
                Piece::Close,
            ],
        ),
        Few::Two(arrow, receiver) => {
            if is_arrow(word_of(forms, arrow)) {
                clause_with_receiver(forms, span, test, receiver, others)
            } else {
                clause_with_body(forms, span, test, answer, others)
            }
        }
        Few::One(_) => clause_with_body(forms, span, test, answer, others),
        Few::Three(_, _, _) => clause_with_body(forms, span, test, answer, others),
        Few::More => clause_with_body(forms, span, test, answer, others),
    }
}

/// The last clause, which may be `(else B ..)`.
fn last_clause(
    forms: &mut Forms,
    span: Span,
    test: u32,
    answer: u32,
    others: u32,
) -> Result<Row, Memory>
    ensures grown { OnOk result (Grows forms.old forms.new) }
    ensures row { (names : List (List ℕ)) (vars : List Var) (a : Datum) (bs : List Datum) → Held names forms.old test a → AreItems names forms.old answer bs → AreItems names forms.old others [] → IfOk result (λ r. IsRow names forms.new vars r (cond_clause span [] (a ∷ bs))) }
{
    match split(forms, answer) {
        None => plain_clause(forms, span, test, answer, others),
        Some(_) => {
            if is_else(word_of(forms, test)) {
                let form = body(forms, span, answer)?;
                Ok(Row::StandsFor(form))
            } else {
                plain_clause(forms, span, test, answer, others)
            }
        }
    }
}

/// A clause before others.
fn cond_clause(forms: &mut Forms, span: Span, others: u32, clause: u32) -> Result<Row, Memory>
    ensures grown { OnOk result (Grows forms.old forms.new) }
    ensures row { (names : List (List ℕ)) (vars : List Var) (cs : List Datum) (ds : List Datum) → AreItems names forms.old others cs → AreItems names forms.old clause ds → IfOk result (λ r. IsRow names forms.new vars r (cond_clause span cs ds)) }
{
    match split(forms, clause) {
        None => no_row(forms, span),
        Some((test, answer)) => match split(forms, others) {
            None => last_clause(forms, span, test, answer, others),
            Some(_) => plain_clause(forms, span, test, answer, others),
        },
    }
}

/// `(cond)`, `(cond c ..)`
pub fn cond_row(forms: &mut Forms, span: Span, items: u32) -> Result<Row, Memory>
    ensures grown { OnOk result (Grows forms.old forms.new) }
    ensures row { (names : List (List ℕ)) (vars : List Var) (ds : List Datum) → AreItems names forms.old items ds → IfOk result (λ r. IsRow names forms.new vars r (cond_row span ds)) }
{
    match split(forms, items) {
        None => stands_for_atom(forms, span, Form::Nil),
        Some((first, others)) => match items_of(forms, first) {
            None => no_row(forms, span),
            Some(clause) => cond_clause(forms, span, others, clause),
        },
    }
}
