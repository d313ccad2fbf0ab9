// Units for the tests, with what is known of their size.
ghost use Rattle.std.specs.Prelude.{◌≡◌, ◌*◌, ◌<◌, ◌≤◌, [], ◌∷◌, length, IfOk};
ghost use Rattle.t_core.specs.Whole.{IsWhole};
ghost use Rattle.rows_core.specs.CallUnit.{IsBare, IsCallUnit};
ghost use Rattle.rows_core.specs.Units.{IsOnes, IsQuote, HaveAtMost};

use std::alloc::Global;
use std::process::Abort;
use std::test::Fail;
use t_base::{Const, Keys, Name, Names, OpInfo, Shared, Var, Vars};
use t_core::{Core, Form, FormKind, UnitCore};

/// A quoted list of so many ones. The pair of its last item stands first.
pub fn ones(alloc: Global, count: u32) -> Result<Vec<(Const, Const)>, Fail>
    ensures { IfOk result (λ pairs. IsOnes count pairs.items) }
{
    let mut pairs = Vec::new(alloc);
    let mut rest = Const::Nil;
    for k in 0..count {
        pairs.push((Const::Fix(1), rest))?;
        rest = Const::Pair(k);
    }
    Ok(pairs)
}

/// Shared parts with these pairs, and the operations that each unit has.
pub fn shared_of(alloc: Global, pairs: Vec<(Const, Const)>, size: u32) -> Result<Shared, Fail>
    ensures { IfOk result (IsBare pairs.items size) }
{
    let mut names = Names::new(alloc);
    names.intern(b"setter")?;
    let op = OpInfo {
        name: Name(0),
        default: false,
    };
    Ok(Shared {
        names,
        strings: Vec::new(alloc),
        pairs,
        globals: Vec::new(alloc),
        ops: Vec::from_slice(alloc, &[op, op, op])?,
        size,
    })
}

/// The form `(quote c)`.
pub fn quote_form(alloc: Global, c: Const) -> Result<Form, Fail>
    ensures { IfOk result (IsQuote c) }
{
    let mut nodes = Vec::new(alloc);
    nodes.push(Core::Const(c))?;
    Ok(Form {
        kind: FormKind::Plain,
        nodes,
        root: 0,
    })
}

fn params(alloc: Global, first: u32, count: u32) -> Result<Vars, Fail>
    ensures { IfOk result (λ vars. length vars ≡ count) }
{
    let mut vars = Vec::new(alloc);
    for k in 0..count {
        vars.push(Var(first.wrapping_add(k)))?;
    }
    Ok(Vars::from_vec(vars))
}

// The form `(lambda (x ..) nil)` with so many parameters.
fn lambda_form(alloc: Global, first: u32, count: u32) -> Result<Form, Fail>
    requires { count < 10000 }
    ensures { IfOk result (λ form. HaveAtMost 10010 (form ∷ [])) }
{
    let mut nodes = Vec::new(alloc);
    nodes.push(Core::Const(Const::Nil))?;
    nodes.push(Core::Lambda {
        params: params(alloc, first, count)?,
        body: 0,
    })?;
    Ok(Form {
        kind: FormKind::Plain,
        nodes,
        root: 1,
    })
}

/// Forms `(lambda (x ..) nil)`, one for each count of parameters.
pub fn lambda_forms(rt: &impl Abort, alloc: Global, counts: &[u32]) -> Result<Vec<Form>, Fail>
    ensures { IfOk result (λ forms. HaveAtMost (length counts.now * 10010) forms.items) }
{
    let mut forms = Vec::new(alloc);
    let mut next = 0u32;
    for n in counts {
        let count = *n;
        assert!(rt; count < 10000);
        forms.push(lambda_form(alloc, next, count)?)?;
        next = next.wrapping_add(count);
    }
    Ok(forms)
}

/// The unit `((lambda (x) x) 5)`.
pub fn call_unit(alloc: Global) -> Result<UnitCore, Fail>
    ensures unit { IfOk result IsCallUnit }
    ensures whole { IfOk result IsWhole }
{
    let mut params = Vec::new(alloc);
    params.push(Var(0))?;
    let mut operands = Vec::new(alloc);
    operands.push(2)?;
    let mut nodes = Vec::new(alloc);
    nodes.push(Core::Local(Var(0)))?;
    nodes.push(Core::Lambda {
        params: Vars::from_vec(params),
        body: 0,
    })?;
    nodes.push(Core::Const(Const::Fix(5)))?;
    nodes.push(Core::Call {
        operator: 1,
        operands: Keys::from_vec(operands),
        tail: false,
    })?;
    let form = Form {
        kind: FormKind::Plain,
        nodes,
        root: 3,
    };
    let mut forms = Vec::new(alloc);
    forms.push(form)?;
    let shared = shared_of(alloc, Vec::new(alloc), 5)?;
    Ok(UnitCore { shared, forms })
}
