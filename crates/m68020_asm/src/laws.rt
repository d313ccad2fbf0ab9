//! Laws of the run of items, as contracts of functions that do nothing: the assembled bytes run as the items do.

ghost use Rattle.std.specs.Prelude.{◌≡◌, ◌+◌, ℕ, List, slice_get, slice_index, Some, if◌then◌else◌};
ghost use Rattle.m68020_code.specs.declared.instr.Cond.{Cond};
ghost use Rattle.m68020_code.specs.declared.instr.Ea.TheVariants.{Abs};
ghost use Rattle.m68020_code.specs.declared.instr.Instr.{Instr};
ghost use Rattle.m68020_code.specs.declared.instr.Instr.TheVariants.{Bcc, Lea};
ghost use Rattle.m68020_step.specs.declared.machine.Sizes.{Sizes};
ghost use Rattle.m68020_step.specs.declared.machine.Step.{Step};
ghost use Rattle.m68020_step.specs.declared.registers.Effect.TheVariants.{Nothing};
ghost use Rattle.m68020_step.specs.declared.registers.Registers.{Registers};
ghost use Rattle.m68020_step.specs.ConditionCodes.{holds};
ghost use Rattle.m68020_step.specs.Operand.{next, with_pc, with_address};
ghost use Rattle.m68020_step.specs.Step.{State, executed, after, step_of};
ghost use Rattle.m68020_step.specs.Storage.{Regions};
ghost use Rattle.m68020_asm.specs.declared.item.Item.{Item};
ghost use Rattle.m68020_asm.specs.declared.item.Item.TheVariants.{Branch};
ghost use Rattle.m68020_asm.specs.Items.{address, IsLabelAt, CanAssemble};
ghost use Rattle.m68020_asm.specs.Widths.{displacement};
ghost use Rattle.m68020_asm.specs.Assembled.{IsAssembled};
ghost use Rattle.m68020_asm.specs.Run.{Program, program_of, address_in, instruction_of, item_step, reached, machine_after, start_of};

/// The run starts at the place of its entry's label, with the assembled code.
pub fn starts()
    ensures place { (items : List Item) (bytes labels statics : List ℕ) (entry k : ℕ) (sizes : Sizes) (h : IsAssembled items bytes labels) → CanAssemble items → IsLabelAt items entry k → (start_of (program_of items bytes labels h) bytes statics entry sizes).registers.pc ≡ address items h.widths k }
    ensures code { (items : List Item) (bytes labels statics : List ℕ) (entry : ℕ) (sizes : Sizes) (h : IsAssembled items bytes labels) → (start_of (program_of items bytes labels h) bytes statics entry sizes).storage.code ≡ bytes }
{}

/// At an item's place, a step of the items carries out its instruction, with the program counter at the next place.
pub fn item_step_at()
    ensures { (p : Program) (s : State) (k : ℕ) (item : Item) (i : Instr) → s.registers.pc ≡ address_in p k → slice_get p.items k ≡ Some item → instruction_of p.labels (p.widths k) (address_in p k) item ≡ Some i → item_step p s ≡ Some (after s (executed s.storage (address_in p k) (with_pc s.registers (address_in p (k + 1))) i)) }
{}

/// A label has no bytes: who is at it is at the next place.
pub fn behind_label()
    ensures { (p : Program) (n k : ℕ) → IsLabelAt p.items n k → address_in p (k + 1) ≡ address_in p k }
{}

/// A label is listed with the address of its place.
pub fn label_address()
    ensures { (items : List Item) (bytes labels : List ℕ) (n k : ℕ) (h : IsAssembled items bytes labels) → IsLabelAt items n k → slice_index labels n ≡ address items h.widths k }
{}

/// A branch goes to its label's place where its condition holds, and else on.
pub fn branch_goes()
    ensures { (items : List Item) (bytes labels : List ℕ) (m : Regions) (r : Registers) (k j n : ℕ) (c : Cond) (h : IsAssembled items bytes labels) → CanAssemble items → slice_get items k ≡ Some (Branch c n) → IsLabelAt items n j → executed m (address items h.widths k) r (Bcc c (h.widths k) (displacement (address items h.widths k) (slice_index labels n))) ≡ next (if holds c r.flags then with_pc r (address items h.widths j) else r) Nothing }
{}

/// The instruction of `CodeAddr` puts the label's address into the address register.
pub fn address_taken()
    ensures { (m : Regions) (at : ℕ) (r : Registers) (a reg : ℕ) → executed m at r (Lea (Abs a) reg) ≡ next (with_address r reg a) Nothing }
{}

/// Wherever an item stands at the program counter, the machine's step over the assembled bytes is the items'.
pub fn step_alike()
    ensures { (items : List Item) (bytes labels : List ℕ) (s : State) (x : Step × State) (h : IsAssembled items bytes labels) → CanAssemble items → s.storage.code ≡ bytes → item_step (program_of items bytes labels h) s ≡ Some x → step_of s ≡ x }
{}

/// The machine over the assembled bytes has the items' state after any number of steps, as long as an item stands at each. The
/// code stays as it is.
pub fn run_alike()
    ensures state { (items : List Item) (bytes labels : List ℕ) (s t : State) (n : ℕ) (h : IsAssembled items bytes labels) → CanAssemble items → s.storage.code ≡ bytes → reached (program_of items bytes labels h) s n ≡ Some t → machine_after s n ≡ t }
    ensures code { (items : List Item) (bytes labels : List ℕ) (s t : State) (n : ℕ) (h : IsAssembled items bytes labels) → CanAssemble items → s.storage.code ≡ bytes → reached (program_of items bytes labels h) s n ≡ Some t → t.storage.code ≡ bytes }
{}
