//! Laws of calls of what isn't known, in stamped runs.

ghost use Rattle.frame_dispatch.specs.Laws.{BuiltinsAreApplied, NotProceduresFail};

/// A call of a builtin comes to its entry; a call of what is no procedure ends the run by that fault.
pub fn calls_look_at_headers()
    ensures builtins { BuiltinsAreApplied }
    ensures not_procedures { NotProceduresFail }
{}
