// New cells, and the data that they are.
ghost use Rattle.std.specs.Prelude.{◌≡◌, ◌+◌, List, ℕ, length, option_map, IfOk, OnOk};
ghost use Rattle.t_forms.specs.Data.{Datum, Atom, atom, cons};
ghost use Rattle.t_forms.specs.Held.{Held, Continues, IsAtom, Extends};

use crate::arena::{Form, Forms};
use crate::item_count::ItemCount;
use t_base::{Memory, Span};

/// How many items there are with one before them. Where they are 2^32 - 1 or more there is no room for them.
fn one_more(count: Option<u32>) -> Result<ItemCount, Memory>
    ensures { IfOk result (λ more. more ≡ option_map (λ n. n + 1) count) }
{
    match count {
        None => Ok(ItemCount::new(None)),
        Some(count) => {
            if count >= u32::MAX - 1 {
                return Err(Memory);
            }
            Ok(ItemCount::new(Some(count + 1)))
        }
    }
}

impl Forms {
    /// Puts an atom last and gives its place. The only error is the want of memory.
    pub fn atom(&mut self, span: Span, form: Form) -> Result<u32, Memory>
        ensures place { IfOk result (λ key. key ≡ length self.old) }
        ensures count { OnOk result (length self.new ≡ length self.old + 1) }
        ensures grown { Extends self.old self.new }
        ensures held { (names : List (List ℕ)) (a : Atom) → IsAtom names form a → IfOk result (λ key. Held names self.new key (atom span a)) }
    {
        let key = self.add(span, form)?;
        Ok(key)
    }

    /// Puts a pair last and gives its place. The only error is the want of memory.
    pub fn cons(&mut self, span: Span, head: u32, tail: u32) -> Result<u32, Memory>
        ensures place { IfOk result (λ key. key ≡ length self.old) }
        ensures count { OnOk result (length self.new ≡ length self.old + 1) }
        ensures grown { Extends self.old self.new }
        ensures held { (names : List (List ℕ)) (h t : Datum) → Held names self.old head h → Continues names self.old tail t → IfOk result (λ key. Held names self.new key (cons span h t)) }
    {
        let behind = self.item_count(tail);
        let count = one_more(behind)?;
        let key = self.add(span, Form::Pair { head, tail, count })?;
        Ok(key)
    }
}
