// Where the numbers of new variables begin.
ghost use Rattle.std.specs.Prelude.{◌≤◌, [], ◌∷◌, IfOk, All};
ghost use Rattle.std.specs.List.{flat_map};
ghost use Rattle.cps_units.specs.Numbers.{IsPast, IsPastNode, ArePastNodes, IsPastUnit};

use t_base::{Memory, Var};
use t_core::{Core, Method, UnitCore};

/// A number above that of a variable.
fn past_var(least: u32, var: Var) -> Result<u32, Memory>
    ensures { IfOk result (λ n. IsPast least n (var ∷ [])) }
{
    if var.0 < least {
        return Ok(least);
    }
    match var.0.checked_add(1) {
        Some(next) => Ok(next),
        None => Err(Memory),
    }
}

/// A number above those of variables.
fn past_vars(least: u32, vars: &[Var]) -> Result<u32, Memory>
    ensures { IfOk result (λ n. IsPast least n vars.now) }
{
    let mut past = least;
    'vars: for var in vars {
        past = past_var(past, *var)?;
    }
    Ok(past)
}

/// A number above those of the parameters of methods.
fn past_methods(least: u32, methods: &[Method]) -> Result<u32, Memory>
    ensures { IfOk result (λ n. IsPast least n (flat_map (λ m. m.params) methods.now)) }
{
    let mut past = least;
    'methods: for method in methods {
        past = past_vars(past, method.params.as_slice())?;
    }
    Ok(past)
}

/// A number above those of the variables that a node binds and of the one that it assigns.
fn past_node(least: u32, node: &Core) -> Result<u32, Memory>
    ensures { IfOk result (λ n. ArePastNodes least n (node.now ∷ [])) }
{
    match node {
        Core::Lambda { params, .. } => past_vars(least, params.as_slice()),
        Core::Let { vars, .. } => past_vars(least, vars.as_slice()),
        Core::Labels { vars, .. } => past_vars(least, vars.as_slice()),
        Core::Catch { var, .. } => past_var(least, *var),
        Core::SetLocal { var, .. } => past_var(least, *var),
        Core::Object { methods, .. } => past_methods(least, methods.as_slice()),
        _ => Ok(least),
    }
}

/// A number above those of the variables that nodes bind and assign.
fn past_nodes(least: u32, nodes: &[Core]) -> Result<u32, Memory>
    ensures { IfOk result (λ n. ArePastNodes least n nodes.now) }
{
    let mut past = least;
    'nodes: for node in nodes {
        past = past_node(past, node)?;
    }
    Ok(past)
}

/// A number above those of all variables that a unit binds and assigns. It is linear in the nodes. The only error is the want of memory,
/// which is answered too where numbers of 32 bits don't suffice.
pub fn first_new(unit: &UnitCore) -> Result<u32, Memory>
    ensures { IfOk result (IsPastUnit unit.now) }
{
    let mut past = 0;
    'forms: for form in &unit.forms {
        past = past_nodes(past, form.nodes.as_slice())?;
    }
    Ok(past)
}
