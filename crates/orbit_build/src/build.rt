//! From a text to the bytes of its image.

ghost use Rattle.std.specs.Prelude.{◌≡◌, ◌≤◌, ◌^◌, List, length, IfOk, IfErr, OnOk, IsErrOf, Err, Ok, false, true};
ghost use Rattle.t_base.specs.declared.basics.Span.{Span};
ghost use Rattle.t_prim.specs.SharedParts.{HasLowerParts};
ghost use Rattle.t_core.specs.Counts.{bulk_of};
ghost use Rattle.t_core.specs.Limits.{limit_of};
ghost use Rattle.t_core.specs.Whole.{IsWhole};
ghost use Rattle.t_core.specs.declared.limiting.LimitFault.{LimitFault};
ghost use Rattle.t_reader.specs.declared.fault.ReadFault.TheVariants as read_fault;
ghost use Rattle.t_reader.specs.declared.fault.ReadKind.{ReadKind};
ghost use Rattle.t_reader.specs.Grammar.{FirstFault};
ghost use Rattle.t_rows.specs.declared.refusal.SyntaxKind.{SyntaxKind};
ghost use Rattle.orbit_build.specs.Sums.{is_built};
ghost use Rattle.orbit_build.specs.Faults.{is_late};
ghost use Rattle.orbit_build.specs.Faithful.{HasCore, HasRefusal, IsOver, IsUnbuilt, IsBuilt, IsImageOfUnit, Faithful};

use crate::fault::BuildFault;
use crate::unit::{code_of, is_built};
use image_file::{Image, write_image};
use std::alloc::Global;
use t_base::{Memory, Names};
use t_core::{UnitCore, limits};
use t_expand::expand;
use t_objects::resolve_ops;
use t_reader::read_unit;

const CODE_START: u32 = 0x1_0000;

/// Bytes of static words: each sum whose second operand is being evaluated has one.
const STATICS: usize = 8000;

/// The core of a text of at most 2^20 bytes.
///
/// `Err(Read)` is the first fault of the text. `Err(Syntax)` is the first refusal of the forms of a text that has no fault.
/// `Err(Memory)` is the want of memory, and would stand for what can't arise on a text; no clause says when it comes. The other errors
/// never come.
pub fn read_core(alloc: Global, text: &[u8]) -> Result<UnitCore, BuildFault>
    requires { length text.now ≤ 2 ^ 20 }
    ensures core { IfOk result (λ unit. HasCore text.now unit) }
    ensures bulk { IfOk result (λ unit. bulk_of unit ≤ 2 ^ 31) }
    ensures lower { IfOk result (λ unit. HasLowerParts unit.shared.pairs.items) }
    ensures read { (kind : ReadKind) (span : Span) → result ≡ Err (BuildFault.Read kind span) → FirstFault text.now (read_fault.Fault kind span) }
    ensures syntax { (kind : SyntaxKind) (span : Span) → result ≡ Err (BuildFault.Syntax kind span) → HasRefusal text.now kind span }
    ensures early { IfErr result (λ e. is_late e ≡ false) }
{
    let unit = read_unit(alloc, text)?;
    let ops = resolve_ops(alloc, &unit)?;
    let core = expand(alloc, unit, &ops)?;
    Ok(core)
}

/// The bytes of the image of a built unit.
fn image_of(alloc: Global, unit: &UnitCore) -> Result<Vec<u8>, Memory>
    requires whole { IsWhole unit.now }
    requires built { is_built unit.now ≡ true }
    requires within { limit_of unit.now ≡ Ok tt }
    ensures image { IfOk result (λ bytes. IsImageOfUnit unit.now bytes.items) }
    ensures few { IfOk result (λ bytes. length bytes.items ≤ 2 ^ 29) }
{
    let code = code_of(alloc, unit)?;
    let statics = vec![in alloc; 0u8; STATICS]?;
    let image = Image {
        code,
        statics,
        entry: CODE_START,
        names: Names::new(alloc),
    };
    let bytes = write_image(alloc, &image)?;
    Ok(bytes)
}

/// The bytes of the image that does what a text of at most 2^20 bytes means.
///
/// `Err(Read)` is the first fault of the text. `Err(Syntax)` is the first refusal of the forms of a text that has no fault.
/// `Err(Limit)` is the first limit that the unit of such forms is over. `Err(Unbuilt)` comes only for a text within the limits
/// whose unit has a defining form, or a node that is neither a fixnum nor a sum, and `Ok` only for one whose unit has none.
/// `Err(Memory)` is the want of memory, and would stand for what can't arise on a text; no clause says when it comes.
pub fn compile(alloc: Global, text: &[u8]) -> Result<Vec<u8>, BuildFault>
    requires { length text.now ≤ 2 ^ 20 }
    ensures faithful { IfOk result (λ bytes. Faithful text.now bytes.items) }
    ensures built { OnOk result (IsBuilt text.now) }
    ensures few { IfOk result (λ bytes. length bytes.items ≤ 2 ^ 29) }
    ensures read { (kind : ReadKind) (span : Span) → result ≡ Err (BuildFault.Read kind span) → FirstFault text.now (read_fault.Fault kind span) }
    ensures syntax { (kind : SyntaxKind) (span : Span) → result ≡ Err (BuildFault.Syntax kind span) → HasRefusal text.now kind span }
    ensures limit { (fault : LimitFault) → result ≡ Err (BuildFault.Limit fault) → IsOver text.now fault }
    ensures unbuilt { IsErrOf result BuildFault.Unbuilt → IsUnbuilt text.now }
{
    let unit = read_core(alloc, text)?;
    limits(&unit)?;
    if !is_built(&unit) {
        return Err(BuildFault::Unbuilt);
    }
    let bytes = image_of(alloc, &unit)?;
    Ok(bytes)
}
