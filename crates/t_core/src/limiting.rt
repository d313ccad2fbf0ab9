// Which units are too large.
ghost use Rattle.std.specs.Prelude.{◌≡◌, ◌≤◌, ◌^◌, length};
ghost use Rattle.t_prim.specs.SharedParts.{HasLowerParts};
ghost use Rattle.t_core.specs.Counts.{bulk_of};
ghost use Rattle.t_core.specs.Limits.{greatest, node_width, form_width, limit_of};

use crate::{Core, Form, Method, UnitCore, nodes, weight};

const NODES: u64 = 2000;

const WEIGHT: u64 = 4194304;

const PARAMS: u64 = 20;

/// A count that is over its limit: the nodes of a form, at most 2,000; the weight of the unit, at most 2^22; the parameters of
/// a LAMBDA, a method (self included) or a default, or the operands of a call, at most 20. `form` is the place of the first form
/// that is over, and `count` its count, for `Params` the greatest one in it.
#[derive(Clone, Copy, PartialEq, Eq, Debug)]
pub enum LimitFault {
    FormNodes { form: u32, count: u64 },
    UnitWeight { count: u64 },
    Params { form: u32, count: u64 },
}

fn widest_method(methods: &[Method]) -> u64
    ensures { result ≡ greatest (λ m. length m.params) methods.now }
{
    let mut most = 0;
    for method in methods {
        most = most.max(method.params.as_slice().len() as u64);
    }
    most
}

fn width(node: &Core) -> u64
    ensures { result ≡ node_width node.now }
{
    match node {
        Core::Lambda { params, .. } => params.as_slice().len() as u64,
        Core::Object { methods, .. } => widest_method(methods.as_slice()),
        Core::Call { operands, .. } => operands.as_slice().len() as u64,
        _ => 0,
    }
}

fn widest(form: &Form) -> u64
    ensures { result ≡ form_width form.now }
{
    let mut most = 0;
    for node in &form.nodes {
        most = most.max(width(node));
    }
    most
}

/// Whether the unit is within the limits. An `Err` comes exactly where a count is over its number: `FormNodes` before
/// `UnitWeight` before `Params`. It takes no memory.
pub fn limits(unit: &UnitCore) -> Result<(), LimitFault>
    requires lower { HasLowerParts unit.now.shared.pairs.items }
    requires fits { bulk_of unit.now ≤ 2 ^ 31 }
    ensures { result ≡ limit_of unit.now }
{
    'sizes: for (i, form) in unit.forms.iter().enumerate() {
        let count = nodes(form, &unit.shared);
        if count > NODES {
            return Err(LimitFault::FormNodes {
                form: i as u32,
                count,
            });
        }
    }
    let count = weight(unit);
    if count > WEIGHT {
        return Err(LimitFault::UnitWeight { count });
    }
    'widths: for (i, form) in unit.forms.iter().enumerate() {
        let count = widest(form);
        if count > PARAMS {
            return Err(LimitFault::Params {
                form: i as u32,
                count,
            });
        }
    }
    Ok(())
}
