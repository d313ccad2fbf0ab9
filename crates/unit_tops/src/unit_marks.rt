// Which names were defined so far.
ghost use Rattle.std.specs.Prelude.{◌≡◌, ◌≢◌, ◌++◌, ◌∷◌, [], List, ℕ, Some, AllPairs, false, replicate, slice_get, length, IfOk, OnOk};
ghost use Rattle.std.specs.List.{list_any};
ghost use Rattle.t_forms.specs.Data.{Name as SpecName, is_same_name};
ghost use Rattle.t_forms.specs.Held.{IsName};
ghost use Rattle.unit_tops.specs.Marks.{Marks};

use std::alloc::Global;
use std::marker::Model;
use t_base::{Memory, Name};
use t_forms::LocalName;

/// Marks on names, by their places. Contracts see the list of the marks.
#[derive(Drop)]
pub struct NameMarks {
    places: Vec<bool>,
}

impl Model for NameMarks {
    ghost use Rattle.std.specs.Prelude.{List, Bool};

    ghost Value = { List Bool };

    ghost view = { λ m. m.places.items };
}

impl NameMarks {
    /// No marks, at so many places. The only error is the want of memory.
    pub fn new(alloc: Global, count: usize) -> Result<NameMarks, Memory>
        ensures { IfOk result (λ marks. marks ≡ replicate count false) }
    {
        let places = vec![in alloc; false; count]?;
        Ok(NameMarks { places })
    }

    fn at(&self, name: Name) -> Option<bool>
        ensures { result ≡ slice_get self.now name.0 }
    {
        self.places.get(name.0 as usize).copied()
    }

    /// Marks a name and says whether it was marked. A new variable is never defined at top level, which is answered as want of memory.
    pub fn mark(&mut self, name: LocalName) -> Result<bool, Memory>
        ensures before { (names : List (List ℕ)) (defined : List SpecName) (n : SpecName) → IsName names name n → Marks names self.old defined → IfOk result (λ b. b ≡ list_any (is_same_name n) defined) }
        ensures marked { (names : List (List ℕ)) (defined : List SpecName) (n : SpecName) → AllPairs (λ a b. a ≢ b) names → IsName names name n → Marks names self.old defined → OnOk result (Marks names self.new (defined ++ n ∷ [])) }
    {
        let name = match name {
            LocalName::Written(name) => name,
            LocalName::Made(_) => return Err(Memory),
        };
        match self.at(name) {
            None => Err(Memory),
            Some(was) => {
                self.places[name.0 as usize] = true;
                Ok(was)
            }
        }
    }
}
