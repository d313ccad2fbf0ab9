//! Texts and the core of their forms.

use std::alloc::Global;
use std::process::Abort;
use std::test::Fail;
use t_base::{Const, GlobalKind, Memory, Name, OpInfo, Prim, Span, Var};
use t_core::{Core, Form, FormKind, UnitCore};
use t_expand::{Spans, expand, expand_spans};
use t_objects::{OpTable, resolve_ops};
use t_reader::read_unit;

/// What is still to be shown.
#[derive(Clone, Copy)]
enum Step {
    Node(u32),
    Close,
}

fn push_number(alloc: Global, out: &mut Vec<u8>, number: i64) -> Result<(), Memory> {
    let digits = format!(in alloc; "{number}")?;
    out.extend_from_slice(digits.as_bytes())?;
    Ok(())
}

fn push_span(alloc: Global, out: &mut Vec<u8>, span: Span) -> Result<(), Memory> {
    push_number(alloc, out, i64::from(span.start))?;
    out.push(b'-')?;
    push_number(alloc, out, i64::from(span.end))?;
    out.push(b':')?;
    Ok(())
}

/// The variable, as `x` where it is the one that the LAMBDA around it binds.
fn push_variable(out: &mut Vec<u8>, var: Var, bound: Option<Var>) -> Result<(), Memory> {
    out.push(if Some(var) == bound { b'x' } else { b'?' })?;
    Ok(())
}

/// The node, which begins one with parts or stands alone. The parts are put under the steps that are left, the last one first.
fn push_node(
    alloc: Global,
    out: &mut Vec<u8>,
    steps: &mut Vec<Step>,
    bound: &mut Option<Var>,
    node: &Core,
) -> Result<(), Memory> {
    match node {
        Core::Const(Const::Fix(n)) => push_number(alloc, out, i64::from(*n))?,
        Core::Local(var) => push_variable(out, *var, *bound)?,
        Core::Lambda { params, body } => {
            *bound = params.as_slice().first().copied();
            out.extend_from_slice(b"[ lambda")?;
            for _ in params.as_slice() {
                out.extend_from_slice(b" x")?;
            }
            steps.push(Step::Close)?;
            steps.push(Step::Node(*body))?;
        }
        Core::Prim {
            prim: Prim::Add,
            operands,
        } => {
            out.extend_from_slice(b"[ +")?;
            steps.push(Step::Close)?;
            for operand in operands.as_slice().iter().rev() {
                steps.push(Step::Node(*operand))?;
            }
        }
        _ => out.push(b'!')?,
    }
    Ok(())
}

/// The nodes of the form from its root on, a LAMBDA as `[ lambda x body ]` and a sum as `[ + a b ]`, each with its span before
/// it where there are spans.
fn shown(alloc: Global, form: &Form, spans: &[Span]) -> Result<Vec<u8>, Memory> {
    let mut out = Vec::new(alloc);
    let mut steps = Vec::new(alloc);
    let mut bound = None;
    steps.push(Step::Node(form.root))?;
    for _ in 0..1000 {
        match steps.pop() {
            Some(Step::Node(key)) => {
                if let Some(span) = spans.get(key as usize) {
                    push_span(alloc, &mut out, *span)?;
                }
                if let Some(node) = form.nodes.get(key as usize) {
                    push_node(alloc, &mut out, &mut steps, &mut bound, node)?;
                }
            }
            Some(Step::Close) => out.push(b']')?,
            None => break,
        }
        out.push(b' ')?;
    }
    Ok(out)
}

/// Defines the operation `op` with a default, which is a LAMBDA of one parameter over two sums. The row of a sum of three makes the
/// inner one, and the row of the definition makes the LAMBDA: these have the span of the datum to which their row was applied.
static TEXT: &[u8] = b"(define-operation (op s) (+ s 1 2))";

/// The operations of TEXT. Its names are `setter`, `contents`, `set-contents`, `define-operation`, `op`, `s` and `+`.
static OPERATIONS: [OpInfo; 4] = [
    OpInfo {
        name: Name(0),
        default: false,
    },
    OpInfo {
        name: Name(1),
        default: false,
    },
    OpInfo {
        name: Name(2),
        default: false,
    },
    OpInfo {
        name: Name(4),
        default: true,
    },
];

/// The unit of TEXT has one form of six nodes, which defines the fourth operation, and these nodes from its root on.
fn check_unit(
    rt: &impl Abort,
    alloc: Global,
    table: &OpTable,
    unit: &UnitCore,
    spans: &[Span],
    nodes: &[u8],
) -> Result<(), Fail> {
    let [form] = unit.forms.as_slice() else {
        return Err(Fail::from("not one form"));
    };
    let found = shown(alloc, form, spans)?;
    assert_eq!(rt; table.ops.as_slice(), OPERATIONS.as_slice());
    assert_eq!(rt; unit.shared.ops.as_slice(), OPERATIONS.as_slice());
    assert_eq!(rt; form.kind, FormKind::Operation(3));
    assert_eq!(rt; form.nodes.len(), 6);
    assert_eq!(rt; found.as_slice(), nodes);
    Ok(())
}

#[test]
fn an_operation_with_a_default(rt: HostRuntime) -> Result<(), Fail> {
    let alloc = rt.alloc();
    let unit = read_unit(alloc, TEXT)?;
    let table = resolve_ops(alloc, &unit)?;
    let core = expand(alloc, unit, &table)?;
    let nodes = b"[ lambda x [ + [ + x 1 ] 2 ] ] ";
    check_unit(&rt, alloc, &table, &core, &[], nodes)
}

#[test]
fn an_operation_with_spans(rt: HostRuntime) -> Result<(), Fail> {
    let alloc = rt.alloc();
    let unit = read_unit(alloc, TEXT)?;
    let table = resolve_ops(alloc, &unit)?;
    let (core, spans) = expand_spans(alloc, unit, &table)?;
    let [spans] = spans.as_slice() else {
        return Err(Fail::from("not one list of spans"));
    };
    let nodes = b"0-35:[ lambda x 25-34:[ + 25-34:[ + 28-29:x 30-31:1 ] 32-33:2 ] ] ";
    assert_eq!(rt; spans.as_slice().len(), 6);
    check_unit(&rt, alloc, &table, &core, spans.as_slice(), nodes)
}

/// Whether a DEFINE is of a LAMBDA is told by its core: a BLOCK of one LAMBDA is that LAMBDA.
#[test]
fn a_block_of_a_lambda_is_a_procedure(rt: HostRuntime) -> Result<(), Fail> {
    let alloc = rt.alloc();
    let unit = read_unit(alloc, b"(define f (block (lambda (x) x)))")?;
    let table = resolve_ops(alloc, &unit)?;
    let core = expand(alloc, unit, &table)?;
    let [global] = core.shared.globals.as_slice() else {
        return Err(Fail::from("not one global"));
    };
    assert_eq!(rt; global.kind, GlobalKind::Proc);
    Ok(())
}
