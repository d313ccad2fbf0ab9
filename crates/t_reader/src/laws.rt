//! Laws of the grammar of a text.

ghost use Rattle.std.specs.Prelude.{◌≡◌, ◌⊎◌, List, ℕ};
ghost use Rattle.t_reader.specs.Grammar.{Tree, Reads, FirstFault};
ghost use Rattle.t_reader.specs.declared.fault.ReadFault.{ReadFault};

/// Each text has a reading or a first fault.
pub fn reading_or_fault()
    ensures { (text : List ℕ) → ((trees : List Tree) × Reads text trees) ⊎ ((f : ReadFault) × FirstFault text f) }
{}

/// No text has both.
pub fn not_both()
    ensures { (text : List ℕ) (trees : List Tree) (f : ReadFault) → Reads text trees → FirstFault text f → ⊥ }
{}

/// A text has at most one reading.
pub fn one_reading()
    ensures { (text : List ℕ) (trees others : List Tree) → Reads text trees → Reads text others → trees ≡ others }
{}

/// A text has at most one first fault.
pub fn one_fault()
    ensures { (text : List ℕ) (f g : ReadFault) → FirstFault text f → FirstFault text g → f ≡ g }
{}
