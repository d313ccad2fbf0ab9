// The core of a unit.
ghost use Rattle.std.specs.Prelude.{◌≡◌};

use std::marker::Model;
use t_base::{Const, Keys, Prim, Shared, Var, Vars};

/// A method of an object: the place of its operation in `Shared`, its parameters, of which the first is the object itself, and
/// the node of its body.
#[derive(Drop)]
pub struct Method {
    pub op: u32,
    pub params: Vars,
    pub body: u32,
}

/// A list of methods, which contracts see as a list.
#[derive(Drop)]
pub struct Methods {
    items: Vec<Method>,
}

impl Model for Methods {
    ghost use Rattle.std.specs.Prelude.{List};
    ghost use Rattle.t_core.specs.declared.forms.Method.{Method};

    ghost Value = { List Method };

    ghost view = { λ l. l.items.items };
}

impl Methods {
    /// The list of these items. It takes no memory.
    pub fn from_vec(items: Vec<Method>) -> Methods
        ensures { result ≡ items.items }
    {
        Methods { items }
    }

    /// The items in order.
    pub fn as_slice(&self) -> &[Method]
        ensures { result.now ≡ self.now }
    {
        self.items.as_slice()
    }

    /// Gives the items back. It takes no memory.
    pub fn into_vec(self) -> Vec<Method>
        ensures { result.items ≡ self }
    {
        self.items
    }
}

/// A node of a form. Its parts are the places of nodes that stand before it in the form. Variables are bound once in the whole
/// unit; globals, operations and the things that a constant names are places in `Shared`.
#[derive(Drop)]
pub enum Core {
    /// A constant. Its quoted pair is named by no other constant.
    Const(Const),
    /// A lexical variable's value.
    Local(Var),
    /// A global's value.
    Global(u32),
    /// A builtin as a value.
    Builtin(Prim),
    /// An operation as a value.
    Op(u32),
    /// A procedure.
    Lambda {
        params: Vars,
        body: u32,
    },
    /// `yes` where the test isn't Nil, else `no`.
    If {
        test: u32,
        yes: u32,
        no: u32,
    },
    /// At least one node, of which the last one gives the value.
    Block(Keys),
    /// The values from left to right, then the body with the variables bound to them.
    Let {
        vars: Vars,
        values: Keys,
        body: u32,
    },
    /// LAMBDAs that see each other's names, and the body that sees them too.
    Labels {
        vars: Vars,
        lambdas: Keys,
        body: u32,
    },
    /// An assignment of a lexical variable.
    SetLocal {
        var: Var,
        value: u32,
    },
    /// An assignment of a global, which an LSET defines.
    SetGlobal {
        global: u32,
        value: u32,
    },
    /// The body with the variable bound to an escape.
    Catch {
        var: Var,
        body: u32,
    },
    /// An object: what it does as a procedure, and its methods, of which the first one for an operation counts.
    Object {
        proc: u32,
        methods: Methods,
    },
    /// A call. `tail` is true exactly in a tail place.
    Call {
        operator: u32,
        operands: Keys,
        tail: bool,
    },
    /// A builtin at as many operands as its arity.
    Prim {
        prim: Prim,
        operands: Keys,
    },
}

/// What a form defines: a global by DEFINE or by LSET, an operation, or nothing. The numbers are places in `Shared`.
#[derive(Clone, Copy, PartialEq, Eq, Debug)]
pub enum FormKind {
    Define(u32),
    Lset(u32),
    Operation(u32),
    Plain,
}

/// A top-level form, and the place of its root among its nodes. The form of an operation with a default has a LAMBDA as root,
/// whose parameters are those of the default, the object first; that of one without a default has no nodes, and root 0.
#[derive(Drop)]
pub struct Form {
    pub kind: FormKind,
    pub nodes: Vec<Core>,
    pub root: u32,
}

/// A unit: the parts that no pass changes, and its forms, which run in order.
#[derive(Drop)]
pub struct UnitCore {
    pub shared: Shared,
    pub forms: Vec<Form>,
}
