//! Laws of the cores of a text, and of what a text is compiled to.

ghost use Rattle.std.specs.Prelude.{◌≡◌, List, ℕ};
ghost use Rattle.expand_laws.specs.SameCounts.{CountAlike};
ghost use Rattle.core_meanings.specs.SameMeaning.{MeanTheSame};
ghost use Rattle.orbit_build.specs.Faithful.{HasCore, IsOver, IsUnbuilt, IsBuilt, Faithful, IsImageOfUnit};
ghost use Rattle.orbit_build.specs.Sums.{is_built};
ghost use Rattle.t_core.specs.declared.forms.UnitCore.{UnitCore};
ghost use Rattle.t_core.specs.declared.limiting.LimitFault.{LimitFault};

use core_meanings::cores_mean_the_same;

/// All cores of a text count alike, and all are built or none.
pub fn cores_alike()
    ensures counts { (text : List ℕ) (unit other : UnitCore) → HasCore text unit → HasCore text other → CountAlike unit other }
    ensures built { (text : List ℕ) (unit other : UnitCore) → HasCore text unit → HasCore text other → is_built unit ≡ is_built other }
{}

/// A text is over one limit, or within the limits and built, or within them and not built: no two of these hold of one text.
pub fn one_outcome()
    ensures limit { (text : List ℕ) (fault more : LimitFault) → IsOver text fault → IsOver text more → fault ≡ more }
    ensures over_unbuilt { (text : List ℕ) (fault : LimitFault) → IsOver text fault → IsUnbuilt text → ⊥ }
    ensures over_built { (text : List ℕ) (fault : LimitFault) → IsOver text fault → IsBuilt text → ⊥ }
    ensures unbuilt_built { (text : List ℕ) → IsUnbuilt text → IsBuilt text → ⊥ }
{}

/// All cores of a text mean the same, and what is faithful to the text does what each of them means.
pub fn every_core()
    ensures meaning { (text : List ℕ) (unit other : UnitCore) → HasCore text unit → HasCore text other → MeanTheSame unit other }
    ensures images { (text bytes : List ℕ) → Faithful text bytes → (unit : UnitCore) → HasCore text unit → IsImageOfUnit unit bytes }
{
    cores_mean_the_same();
}
