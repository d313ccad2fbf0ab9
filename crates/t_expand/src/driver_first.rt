// The first of the refusals so far.
ghost use Rattle.std.specs.Prelude.{◌≡◌, ◌⊎◌, ◌++◌, ◌∷◌, [], List, Option, Some};
ghost use Rattle.expansion.specs.Refusals.{number, Precedes};
ghost use Rattle.t_expand.specs.Expanding.{IsFirst};
ghost use Rattle.t_rows.specs.declared.refusal.Refusal.{Refusal as SpecRefusal};

use t_rows::{Refusal, SyntaxKind};

fn number_of(kind: SyntaxKind) -> u8
    ensures { result ≡ number kind }
{
    match kind {
        SyntaxKind::BadForm => 1,
        SyntaxKind::Twice => 2,
        SyntaxKind::ParamTwice => 3,
        SyntaxKind::NotOperation => 4,
        SyntaxKind::NotSettable => 5,
        SyntaxKind::NotTopLevel => 6,
        SyntaxKind::ConstantSet => 7,
        SyntaxKind::FreeName => 8,
    }
}

/// The refusal that stands first of these two.
fn earlier(a: Refusal, b: Refusal) -> Refusal
    ensures one { (result ≡ a) ⊎ (result ≡ b) }
    ensures first { Precedes result a }
    ensures other { Precedes result b }
{
    let is_before = a.span.start < b.span.start;
    let is_at = a.span.start == b.span.start;
    if is_before || is_at && number_of(a.kind) <= number_of(b.kind) {
        a
    } else {
        b
    }
}

/// The first of the refusals so far and one more.
fn including(first: Option<Refusal>, other: Refusal) -> Refusal
    ensures { (before : Option SpecRefusal) (seen : List SpecRefusal) → IsFirst before seen first → IsFirst before (seen ++ other ∷ []) (Some result) }
{
    match first {
        None => other,
        Some(refusal) => earlier(refusal, other),
    }
}

/// The first of a refusal, if there is one, and others.
pub fn noted(first: Option<Refusal>, refusals: &[Refusal]) -> Option<Refusal>
    ensures { IsFirst first refusals.now result }
{
    let mut least = first;
    'refusals: for refusal in refusals {
        least = Some(including(least, *refusal));
    }
    least
}
