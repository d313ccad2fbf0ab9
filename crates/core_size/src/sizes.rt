// How large quoted pairs, nodes and forms are.
ghost use Rattle.std.specs.Prelude.{◌≡◌, ℕ, ◌+◌, ◌<◌, ◌≤◌, ◌^◌, length, IfOk, IfSome, sum_by};
ghost use Rattle.t_prim.specs.SharedParts.{HasLowerParts};
ghost use Rattle.t_core.specs.Counts.{Pairs, datum_nodes, node_count, method_nodes, definition_count, form_count};
ghost use Rattle.core_size.specs.Sizes.{AreSizes, IsPairSize, KnowsSizes, IsLargest, size_in};

use std::alloc::Global;
use t_base::{Const, Memory};
use t_core::{Core, Form, FormKind, Method};

/// No count is larger.
const MOST: u64 = 2_147_483_648;

fn size_at(sizes: &[u64], c: Const) -> Option<u64>
    ensures { result ≡ size_in sizes.now c }
{
    match c {
        Const::Pair(k) => sizes.get(k as usize).copied(),
        _ => Some(1),
    }
}

/// At most the most that a count can be.
fn within(count: u64) -> Option<u64>
    ensures { IfSome result (λ n. (n ≡ count) × (n ≤ 2 ^ 31)) }
{
    if count > MOST {
        return None;
    }
    Some(count)
}

fn pair_size(sizes: &[u64], head: Const, tail: Const) -> Option<u64>
    ensures { IfSome result (λ n. IsPairSize sizes.now head tail n) }
{
    let first = size_at(sizes, head)?;
    let second = size_at(sizes, tail)?;
    within(first.saturating_add(second).saturating_add(1))
}

/// The sizes of quoted pairs. None, where one is larger than any count can be.
fn sizes_of(alloc: Global, pairs: &[(Const, Const)]) -> Result<Option<Vec<u64>>, Memory>
    requires lower { HasLowerParts pairs.now }
    ensures { IfOk result (λ found. IfSome found (λ sizes. AreSizes sizes.items (length pairs.now) pairs.now)) }
{
    let mut sizes = Vec::new(alloc);
    'pairs: for pair in pairs {
        match pair_size(sizes.as_slice(), pair.0, pair.1) {
            Some(size) => sizes.push(size)?,
            None => return Ok(None),
        }
    }
    Ok(Some(sizes))
}

fn const_size(sizes: &[u64], c: Const) -> Option<u64>
    ensures is { IfSome result (λ n. (pairs : Pairs) → KnowsSizes sizes.now pairs → n ≡ datum_nodes pairs c) }
    ensures few { IfSome result (λ n. n ≤ 2 ^ 31) }
{
    let size = size_at(sizes, c)?;
    let few = within(size)?;
    Some(few)
}

fn methods_size(methods: &[Method]) -> Option<u64>
    ensures { IfSome result (λ n. (n ≡ sum_by method_nodes methods.now) × (n ≤ 2 ^ 31)) }
{
    let mut total: u64 = 0;
    'methods: for method in methods {
        let params = method.params.as_slice().len() as u64;
        total = within(total.saturating_add(params).saturating_add(1))?;
    }
    Some(total)
}

fn one_and(more: u64) -> Option<u64>
    ensures { IfSome result (λ n. (n ≡ 1 + more) × (n ≤ 2 ^ 31)) }
{
    within(more.saturating_add(1))
}

fn node_size(sizes: &[u64], node: &Core) -> Option<u64>
    ensures is { IfSome result (λ n. (pairs : Pairs) → KnowsSizes sizes.now pairs → n ≡ node_count pairs node.now) }
    ensures few { IfSome result (λ n. n ≤ 2 ^ 31) }
{
    match node {
        Core::Const(c) => const_size(sizes, *c),
        Core::Lambda { params, .. } => one_and(params.as_slice().len() as u64),
        Core::Let { vars, .. } => one_and(vars.as_slice().len() as u64),
        Core::Labels { vars, .. } => one_and(vars.as_slice().len() as u64),
        Core::Catch { .. } => Some(2),
        Core::Object { methods, .. } => {
            let more = methods_size(methods.as_slice())?;
            one_and(more)
        }
        _ => Some(1),
    }
}

fn nodes_size(sizes: &[u64], nodes: &[Core]) -> Option<u64>
    ensures is { IfSome result (λ n. (pairs : Pairs) → KnowsSizes sizes.now pairs → n ≡ sum_by (node_count pairs) nodes.now) }
    ensures few { IfSome result (λ n. n ≤ 2 ^ 31) }
{
    let mut total: u64 = 0;
    'nodes: for node in nodes {
        let size = node_size(sizes, node)?;
        total = within(total.saturating_add(size))?;
    }
    Some(total)
}

fn definition_size(kind: FormKind, nodes: &[Core]) -> u64
    ensures is { result ≡ definition_count kind nodes.now }
    ensures few { result ≤ 1 }
{
    match kind {
        FormKind::Define(_) | FormKind::Lset(_) => 1,
        FormKind::Operation(_) if nodes.is_empty() => 1,
        FormKind::Operation(_) | FormKind::Plain => 0,
    }
}

fn form_size(sizes: &[u64], form: &Form) -> Option<u64>
    ensures is { IfSome result (λ n. (pairs : Pairs) → KnowsSizes sizes.now pairs → n ≡ form_count pairs form.now) }
    ensures few { IfSome result (λ n. n ≤ 2 ^ 31) }
{
    let nodes = nodes_size(sizes, form.nodes.as_slice())?;
    within(nodes + definition_size(form.kind, form.nodes.as_slice()))
}

/// The count of the largest form, where all counts, and 8 more for each form, are together at most 2^31.
fn largest_form(sizes: &[u64], forms: &[Form]) -> Option<u64>
    ensures { IfSome result (λ n. (pairs : Pairs) → KnowsSizes sizes.now pairs → IsLargest pairs forms.now n) }
{
    let mut most: u64 = 0;
    let mut bulk: u64 = 0;
    'forms: for form in forms {
        let size = form_size(sizes, form)?;
        most = most.max(size);
        bulk = within(bulk + size + 8)?;
    }
    Some(most)
}

/// The count of the largest form, and 0 without forms. The only error is the want of memory. Where a quoted pair counts more than 2^31,
/// or all counts, and 8 more for each form, are together more than 2^31, the answer is want of memory too.
pub fn largest(alloc: Global, pairs: &[(Const, Const)], forms: &[Form]) -> Result<u32, Memory>
    requires lower { HasLowerParts pairs.now }
    ensures { IfOk result (λ n. IsLargest pairs.now forms.now n) }
{
    let Some(sizes) = sizes_of(alloc, pairs)? else {
        return Err(Memory);
    };
    let Some(most) = largest_form(sizes.as_slice(), forms) else {
        return Err(Memory);
    };
    match u32::try_from(most) {
        Ok(most) => Ok(most),
        Err(_) => Err(Memory),
    }
}
