// Nodes from the nodes of their parts. A shape with parts that aren't its own never comes: the answer is want of memory.
ghost use Rattle.std.specs.Prelude.{◌≡◌, ◌∷◌, ◌++◌, [], false, true, map, List, ℕ, IfOk, OnOk};
ghost use Rattle.t_core.specs.Nodes.{part as node_part, early, block_parts};
ghost use Rattle.core_frames.specs.Building.{variables_of, part_of, IsBuilt};
ghost use Rattle.t_rows.specs.declared.rows.Shape.TheVariants as shapes;

use std::alloc::Global;
use t_base::{Keys, Memory, Var, Vars};
use t_core::{Core, Method, Methods};
use t_rows::Shape;

/// New variables, numbered from a first one.
#[derive(Clone, Copy, PartialEq, Eq, Debug)]
pub struct Fresh {
    pub first: u32,
    pub count: u32,
}

/// A part whose node is made: its place, the variables that are bound around it, and whether it stands in a tail place.
#[derive(Clone, Copy, PartialEq, Eq, Debug)]
pub struct Done {
    pub at: u32,
    pub vars: Fresh,
    pub tail: bool,
}

pub const NO_VARS: Fresh = Fresh { first: 0, count: 0 };

/// The variables as a list.
#[tactic(auto, using(crate::proofs::NodeLemmas::numbered_push))]
fn variables(alloc: Global, vars: Fresh) -> Result<Vars, Memory>
    ensures { IfOk result (λ items. items ≡ variables_of vars) }
{
    if vars.first.checked_add(vars.count).is_none() {
        return Err(Memory);
    }
    let mut items = Vec::with_capacity(alloc, vars.count as usize)?;
    for k in 0..vars.count {
        items.push(Var(vars.first + k))?;
    }
    Ok(Vars::from_vec(items))
}

/// The places of parts around which these variables are bound, and which stand in no tail place, with room for one more.
fn places(alloc: Global, vars: Fresh, done: &[Done]) -> Result<Vec<u32>, Memory>
    ensures { IfOk result (λ keys. map (λ k. node_part k (variables_of vars) false) keys.items ≡ map part_of done.now) }
{
    let mut keys = Vec::with_capacity(alloc, done.len().saturating_add(1))?;
    'parts: for part in done {
        if part.tail || part.vars != vars {
            return Err(Memory);
        }
        keys.push(part.at)?;
    }
    Ok(keys)
}

fn is_plain(part: Done, tail: bool) -> bool
    ensures { result ≡ true → part_of part ≡ node_part part.at [] tail }
{
    part.tail == tail && part.vars == NO_VARS
}

fn lambda(alloc: Global, tail: bool, done: &[Done]) -> Result<Core, Memory>
    ensures { IfOk result (IsBuilt shapes.Lambda tail done.now) }
{
    match done {
        [body] if body.tail => {
            let params = variables(alloc, body.vars)?;
            Ok(Core::Lambda {
                params,
                body: body.at,
            })
        }
        _ => Err(Memory),
    }
}

fn if_node(tail: bool, done: &[Done]) -> Result<Core, Memory>
    ensures { IfOk result (IsBuilt shapes.If tail done.now) }
{
    match done {
        [test, yes, no] if is_plain(*test, false) && is_plain(*yes, tail) && is_plain(*no, tail) =>
            {
                Ok(Core::If {
                    test: test.at,
                    yes: yes.at,
                    no: no.at,
                })
            }
        _ => Err(Memory),
    }
}

/// The places of a block's items, of which the last one alone can stand in a tail place.
fn block_keys(alloc: Global, tail: bool, items: &[Done], last: Done) -> Result<Keys, Memory>
    ensures { IfOk result (λ keys. block_parts keys tail ≡ map part_of items.now ++ part_of last ∷ []) }
{
    if !is_plain(last, tail) {
        return Err(Memory);
    }
    let mut keys = places(alloc, NO_VARS, items)?;
    keys.push(last.at)?;
    Ok(Keys::from_vec(keys))
}

fn block(alloc: Global, tail: bool, done: &[Done]) -> Result<Core, Memory>
    ensures { IfOk result (IsBuilt shapes.Block tail done.now) }
{
    match done {
        [items @ .., last] => {
            let keys = block_keys(alloc, tail, items, *last)?;
            Ok(Core::Block(keys))
        }
        _ => Err(Memory),
    }
}

fn let_node(alloc: Global, tail: bool, done: &[Done]) -> Result<Core, Memory>
    ensures { IfOk result (IsBuilt shapes.Let tail done.now) }
{
    match done {
        [values @ .., body] if body.tail == tail => {
            let values = Keys::from_vec(places(alloc, NO_VARS, values)?);
            let vars = variables(alloc, body.vars)?;
            Ok(Core::Let {
                vars,
                values,
                body: body.at,
            })
        }
        _ => Err(Memory),
    }
}

fn labels(alloc: Global, tail: bool, done: &[Done]) -> Result<Core, Memory>
    ensures { IfOk result (IsBuilt shapes.Labels tail done.now) }
{
    match done {
        [lambdas @ .., body] if body.tail == tail => {
            let lambdas = Keys::from_vec(places(alloc, body.vars, lambdas)?);
            let vars = variables(alloc, body.vars)?;
            Ok(Core::Labels {
                vars,
                lambdas,
                body: body.at,
            })
        }
        _ => Err(Memory),
    }
}

fn single(done: &[Done]) -> Result<u32, Memory>
    ensures { IfOk result (λ value. map part_of done.now ≡ early value ∷ []) }
{
    match done {
        [value] if is_plain(*value, false) => Ok(value.at),
        _ => Err(Memory),
    }
}

fn set_local(var: Var, tail: bool, done: &[Done]) -> Result<Core, Memory>
    ensures { IfOk result (IsBuilt (shapes.SetLocal var) tail done.now) }
{
    let value = single(done)?;
    Ok(Core::SetLocal { var, value })
}

fn set_global(global: u32, tail: bool, done: &[Done]) -> Result<Core, Memory>
    ensures { IfOk result (IsBuilt (shapes.SetGlobal global) tail done.now) }
{
    let value = single(done)?;
    Ok(Core::SetGlobal { global, value })
}

fn catch_node(tail: bool, done: &[Done]) -> Result<Core, Memory>
    ensures { IfOk result (IsBuilt shapes.Catch tail done.now) }
{
    match done {
        [body] if body.vars.count == 1 && !body.tail => Ok(Core::Catch {
            var: Var(body.vars.first),
            body: body.at,
        }),
        _ => Err(Memory),
    }
}

fn method_list(alloc: Global, ops: &[u32], done: &[Done]) -> Result<Methods, Memory>
    ensures ops { IfOk result (λ methods. map (λ m. m.op) methods ≡ ops.now) }
    ensures parts { IfOk result (λ methods. map (λ m. node_part m.body m.params true) methods ≡ map part_of done.now) }
{
    let mut methods = Vec::new(alloc);
    if ops.len() != done.len() {
        return Err(Memory);
    }
    'methods: for index in 0..done.len() {
        let part = done[index];
        if !part.tail {
            return Err(Memory);
        }
        let params = variables(alloc, part.vars)?;
        methods.push(Method {
            op: ops[index],
            params,
            body: part.at,
        })?;
    }
    Ok(Methods::from_vec(methods))
}

fn object(alloc: Global, ops: &[u32], tail: bool, done: &[Done]) -> Result<Core, Memory>
    ensures { (keys : List ℕ) → ops.now ≡ keys → IfOk result (IsBuilt (shapes.Object keys) tail done.now) }
{
    match done {
        [proc, rest @ ..] if is_plain(*proc, false) => {
            let methods = method_list(alloc, ops, rest)?;
            Ok(Core::Object {
                proc: proc.at,
                methods,
            })
        }
        _ => Err(Memory),
    }
}

fn call(alloc: Global, tail: bool, done: &[Done]) -> Result<Core, Memory>
    ensures { IfOk result (IsBuilt shapes.Call tail done.now) }
{
    match done {
        [operator, rest @ ..] if is_plain(*operator, false) => {
            let operands = Keys::from_vec(places(alloc, NO_VARS, rest)?);
            Ok(Core::Call {
                operator: operator.at,
                operands,
                tail,
            })
        }
        _ => Err(Memory),
    }
}

/// A node without parts.
pub fn leaf(core: Core, done: &[Done]) -> Result<Core, Memory>
    ensures same { IfOk result (λ c. c ≡ core) }
    ensures none { OnOk result (done.now ≡ []) }
{
    match done {
        [] => Ok(core),
        _ => Err(Memory),
    }
}

/// The node of a shape other than a constant, whose parts are these nodes.
pub fn node(alloc: Global, shape: &Shape, tail: bool, done: &[Done]) -> Result<Core, Memory>
    ensures { IfOk result (IsBuilt shape.now tail done.now) }
{
    match shape {
        Shape::Local(v) => leaf(Core::Local(*v), done),
        Shape::Global(g) => leaf(Core::Global(*g), done),
        Shape::BuiltinValue(p) => leaf(Core::Builtin(*p), done),
        Shape::OpValue(o) => leaf(Core::Op(*o), done),
        Shape::Lambda => lambda(alloc, tail, done),
        Shape::If => if_node(tail, done),
        Shape::Block => block(alloc, tail, done),
        Shape::Let => let_node(alloc, tail, done),
        Shape::Labels => labels(alloc, tail, done),
        Shape::SetLocal(v) => set_local(*v, tail, done),
        Shape::SetGlobal(g) => set_global(*g, tail, done),
        Shape::Catch => catch_node(tail, done),
        Shape::Object(ops) => object(alloc, ops.as_slice(), tail, done),
        Shape::Call => call(alloc, tail, done),
        Shape::Primitive(prim) => {
            let operands = Keys::from_vec(places(alloc, NO_VARS, done)?);
            Ok(Core::Prim {
                prim: *prim,
                operands,
            })
        }
        Shape::Constant(_) | Shape::Nothing => Err(Memory),
    }
}
