// All forms at top level become forms of the core.
ghost use Rattle.std.specs.Prelude.{◌≡◌, ◌++◌, ◌∷◌, [], List, None, IfOk, OnOk};
ghost use Rattle.t_base.specs.declared.shared_parts.Shared.{Shared as SharedParts};
ghost use Rattle.t_forms.specs.Names.{Bound};
ghost use Rattle.t_expand.specs.Growth.{IsGrown, Keeps, IsReady};
ghost use Rattle.expansion.specs.Settling.{all_settled};
ghost use Rattle.t_expand.specs.Tallies.{AreTallied};
ghost use Rattle.unit_tops.specs.Tops.{AreTops};
ghost use Rattle.expansion.specs.Units.{Top as SpecTop};
ghost use Rattle.expansion.specs.Meaning.{FormsMean};
ghost use Rattle.expansion.specs.Refusals.{RefusedAmong, IsFirstOf};

use crate::driver_state::Expansion;
use crate::spans::Spans;
use crate::unit_top::Expanded;
use t_base::Memory;
use t_core::Form;
use unit_tops::{NameMarks, Top};

/// The forms of a core, and the spans of the nodes of each.
#[derive(Drop)]
pub struct FormList {
    pub forms: Vec<Form>,
    pub spans: Vec<Spans>,
}

impl FormList {
    /// Puts a form last. The only error is the want of memory.
    fn add(&mut self, expanded: Expanded) -> Result<(), Memory>
        ensures forms { OnOk result (self.new.forms.items ≡ self.old.forms.items ++ expanded.form ∷ []) }
        ensures spans { OnOk result (self.new.spans.items ≡ self.old.spans.items ++ expanded.spans ∷ []) }
    {
        let Expanded { form, spans } = expanded;
        self.forms.push(form)?;
        self.spans.push(spans)?;
        Ok(())
    }
}

impl Expansion {
    /// The forms of the core that the forms at top level stand for, if nothing is refused in the unit. Else the first refusal is noted.
    /// The only error is the want of memory, which would stand for what can't arise on a text too.
    pub fn expand_all(&mut self, tops: &[Top]) -> Result<FormList, Memory>
        ensures kept { (ts : List SpecTop) (defined : List Bound) → IsReady self.old defined → AreTops self.old.shared.names self.old.forms tops.now ts → OnOk result (Keeps self.old self.new) }
        ensures refused { (ts : List SpecTop) (defined : List Bound) → IsReady self.old defined → AreTops self.old.shared.names self.old.forms tops.now ts → self.old.first ≡ None → OnOk result (IsFirstOf (RefusedAmong defined ts) self.new.first) }
        ensures meant { (ts : List SpecTop) (defined : List Bound) → IsReady self.old defined → AreTops self.old.shared.names self.old.forms tops.now ts → self.old.first ≡ None → IfOk result (λ x. self.new.first ≡ None → (later : SharedParts) → IsGrown self.new.shared later → FormsMean defined later x.forms.items x.spans.items ts) }
        ensures globals { IfOk result (λ x. self.new.shared.globals.items ≡ all_settled self.old.shared.globals.items x.forms.items) }
        ensures tallied { (self.old.first ≡ None → AreTallied [] self.old) → IfOk result (λ x. self.new.first ≡ None → AreTallied x.forms.items self.new) }
    {
        let alloc = self.alloc;
        let mut marks = NameMarks::new(alloc, self.shared.names.count() as usize)?;
        let mut list = FormList {
            forms: Vec::new(alloc),
            spans: Vec::new(alloc),
        };
        'tops: for top in tops {
            let expanded = self.expand_top(&mut marks, top)?;
            list.add(expanded)?;
        }
        Ok(list)
    }
}
