// How large a form and a unit are.
ghost use Rattle.std.specs.Prelude.{◌≡◌, ◌+◌, ◌^◌, ◌<◌, ◌≤◌, sum_by};
ghost use Rattle.t_prim.specs.SharedParts.{HasLowerParts};
ghost use Rattle.t_core.specs.Counts.{method_nodes, node_count, definition_count, form_count, weight_of, bulk_of};

use crate::quoted::count_constant;
use crate::{Core, Form, FormKind, Method, UnitCore};
use t_base::{Const, Shared};

fn count_methods(methods: &[Method]) -> u64
    requires { sum_by method_nodes methods.now < 2 ^ 32 }
    ensures { result ≡ sum_by method_nodes methods.now }
{
    let mut total = 0;
    for method in methods {
        total += 1 + method.params.as_slice().len() as u64;
    }
    total
}

fn count_node(node: &Core, pairs: &[(Const, Const)]) -> u64
    requires lower { HasLowerParts pairs.now }
    requires fits { node_count pairs.now node.now < 2 ^ 32 }
    ensures { result ≡ node_count pairs.now node.now }
{
    match node {
        Core::Const(c) => count_constant(pairs, *c),
        Core::Lambda { params, .. } => 1 + params.as_slice().len() as u64,
        Core::Let { vars, .. } => 1 + vars.as_slice().len() as u64,
        Core::Labels { vars, .. } => 1 + vars.as_slice().len() as u64,
        Core::Catch { .. } => 2,
        Core::Object { methods, .. } => 1 + count_methods(methods.as_slice()),
        _ => 1,
    }
}

fn count_definition(kind: FormKind, nodes: &[Core]) -> u64
    ensures { result ≡ definition_count kind nodes.now }
{
    match kind {
        FormKind::Define(_) | FormKind::Lset(_) => 1,
        FormKind::Operation(_) if nodes.is_empty() => 1,
        FormKind::Operation(_) | FormKind::Plain => 0,
    }
}

/// The count of a form: 1 for each node, each variable that it binds and each method in it, and 1 for a definition. A quoted
/// pair counts 1 for each pair and each atom in it. Of a whole unit it needs only that the parts of quoted pairs stand below
/// them. It takes no memory.
pub fn nodes(form: &Form, shared: &Shared) -> u64
    requires lower { HasLowerParts shared.now.pairs.items }
    requires fits { form_count shared.now.pairs.items form.now + 8 ≤ 2 ^ 31 }
    ensures { result ≡ form_count shared.now.pairs.items form.now }
{
    let pairs = shared.pairs.as_slice();
    let mut total = 0;
    for node in &form.nodes {
        total += count_node(node, pairs);
    }
    total + count_definition(form.kind, form.nodes.as_slice())
}

/// The weight of a unit: the sum over its forms of the square of 8 more than the form's count of nodes. It takes no memory.
pub fn weight(unit: &UnitCore) -> u64
    requires lower { HasLowerParts unit.now.shared.pairs.items }
    requires fits { bulk_of unit.now ≤ 2 ^ 31 }
    ensures { result ≡ weight_of unit.now }
{
    let mut total = 0;
    for form in &unit.forms {
        let size = nodes(form, &unit.shared) + 8;
        total += size * size;
    }
    total
}
