// The templates of objects.
ghost use Rattle.std.specs.Prelude.{◌<◌, length, IsTrue};
ghost use Rattle.std.specs.List.{AllByRecursion};
ghost use Rattle.frame_ir.specs.Whole.{HasParams, IsMethodCount};
ghost use Rattle.closure_layout.specs.Blocks.{IsOpIn, IsWholeTemplate};

use frame_ir::{Frames, Template};

/// Whether a block can be the code of a method: it has a parameter, and at most 20.
fn is_code(frames: &Frames, code: u32) -> bool
    ensures { IsTrue result → HasParams frames.now IsMethodCount code }
{
    match frames.blocks.get(code as usize) {
        Some(block) => {
            let count = block.params.as_slice().len();
            0 < count && count <= 20
        }
        None => false,
    }
}

fn are_codes(frames: &Frames, codes: &[u32]) -> bool
    ensures { IsTrue result → AllByRecursion (HasParams frames.now IsMethodCount) codes.now }
{
    for code in codes {
        if !is_code(frames, *code) {
            return false;
        }
    }
    true
}

/// Whether an operation is there.
fn is_op(frames: &Frames, op: u32) -> bool
    ensures { IsTrue result → IsOpIn frames.now op }
{
    (op as usize) < frames.shared.ops.len()
}

fn are_ops(frames: &Frames, ops: &[u32]) -> bool
    ensures { IsTrue result → AllByRecursion (IsOpIn frames.now) ops.now }
{
    for op in ops {
        if !is_op(frames, *op) {
            return false;
        }
    }
    true
}

fn is_template(frames: &Frames, template: &Template) -> bool
    ensures { IsTrue result → IsWholeTemplate frames.now template.now }
{
    let ops = template.ops.as_slice();
    let codes = template.codes.as_slice();
    let named = are_ops(frames, ops);
    let coded = are_codes(frames, codes);
    ops.len() == codes.len() && named && coded
}

/// Whether what each template names is there, and operations and codes go together.
pub(crate) fn are_templates(frames: &Frames) -> bool
    ensures { IsTrue result → AllByRecursion (IsWholeTemplate frames.now) frames.now.templates.items }
{
    for template in &frames.templates {
        if !is_template(frames, template) {
            return false;
        }
    }
    true
}
