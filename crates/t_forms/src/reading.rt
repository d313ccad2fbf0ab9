// What a cell tells of the datum that it is.
ghost use Rattle.std.specs.Prelude.{◌≡◌, List, ℕ};
ghost use Rattle.t_forms.specs.Data.{Datum, span_of, count_of, word_of};
ghost use Rattle.t_forms.specs.Held.{Held, Continues, count_form};

use crate::arena::{Form, Forms};
use t_base::Span;
use t_objects::Word;

impl Forms {
    /// The span of the datum at a place; an empty one where there is no cell. It takes no memory.
    pub fn span(&self, key: u32) -> Span
        ensures { (names : List (List ℕ)) (d : Datum) → Held names self.now key d → result ≡ span_of d }
    {
        match self.get(key) {
            Some(cell) => cell.span,
            None => Span { start: 0, end: 0 },
        }
    }

    /// How many items a list has; a dotted list and an atom have none. It takes no memory.
    pub fn item_count(&self, key: u32) -> Option<u32>
        ensures held { (names : List (List ℕ)) (d : Datum) → Held names self.now key d → result ≡ count_of d }
        ensures continued { (names : List (List ℕ)) (d : Datum) → Continues names self.now key d → result ≡ count_of d }
    {
        match self.get(key) {
            Some(cell) => count_in(&cell.form),
            None => None,
        }
    }

    /// The reserved word that a datum is. It takes no memory.
    pub fn word(&self, key: u32) -> Option<Word>
        ensures { (names : List (List ℕ)) (d : Datum) → Held names self.now key d → result ≡ word_of d }
    {
        match self.get(key) {
            Some(cell) => match &cell.form {
                Form::Word(word) => Some(*word),
                _ => None,
            },
            None => None,
        }
    }
}

fn count_in(form: &Form) -> Option<u32>
    ensures { result ≡ count_form form.now }
{
    match form {
        Form::Pair { count, .. } => count.get(),
        Form::Nil => Some(0),
        _ => None,
    }
}
