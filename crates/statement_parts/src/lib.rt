//! The table of parts: of each kind of statement what it stores, evaluates, takes, gives back, states and has inside.
//!
//! - [`parts_of`]: the row of a statement, [`Parts`], which lends from the tree. What asks a statement for one of its parts asks here, and has no
//!   arm for each kind.
//! - [`add_assigned`]: the variables to which the statements of a block store.
//!
//! `specs/Parts.antt` has the table, what is made of several parts, and what is collected along blocks or made of them. `specs/PlainParts.antt` has the same
//! of plain statements, which have no annotations, and `specs/Mapped.antt` statements with other parts.
#![tactic(auto)]

mod assigned;

ghost use Rattle.std.specs.Prelude.{◌≡◌, option_map};
ghost use Rattle.cov_expr.specs.View.{term};
ghost use Rattle.statement_parts.specs.Parts as spec;
ghost use Rattle.cov_ast.specs.View as view;

pub use assigned::add_assigned;
use cov_ast::{Retype, State, Stmt, StmtKind};
use cov_expr::Expr;

/// What an assignment stores: the value, in the variable. The type of the value is written, or left to its variables, and other variables may be given
/// new types.
#[derive(Clone, Copy)]
pub struct Store<'p> {
    pub variable: u32,
    pub value: &'p Expr,
    pub written: Option<&'p Expr>,
    pub retypes: &'p [Retype],
}

/// The blocks of a statement.
#[derive(Clone, Copy)]
pub enum Nested<'p> {
    None,
    /// One that is run in turns.
    Turn(&'p [Stmt]),
    /// Two, of which one is run.
    Either(&'p [Stmt], &'p [Stmt]),
}

/// What a statement has of what statements may have.
#[derive(Clone, Copy)]
pub struct Parts<'p> {
    pub store: Option<Store<'p>>,
    /// What decides between blocks or turns.
    pub guard: Option<&'p Expr>,
    /// What is put out.
    pub printed: Option<&'p Expr>,
    /// The lock that is taken.
    pub taken: Option<u32>,
    /// The lock that is given back.
    pub returned: Option<u32>,
    /// The join of a branch, the invariant of a loop, or a note.
    pub state: Option<&'p State>,
    pub nested: Nested<'p>,
}

/// The parts of a statement.
pub fn parts_of(kind: &StmtKind) -> Parts<'_>
    ensures { spec.parts_of result ≡ spec.parts (view.kind kind.now) }
{
    match kind {
        StmtKind::Skip => Parts::none(),
        StmtKind::Assign(x, e, written, retypes) => Parts {
            store: Some(Store {
                variable: *x,
                value: e,
                written: written.as_ref(),
                retypes: retypes.as_slice(),
            }),
            ..Parts::none()
        },
        StmtKind::Lock(l) => Parts {
            taken: Some(*l),
            ..Parts::none()
        },
        StmtKind::Unlock(l) => Parts {
            returned: Some(*l),
            ..Parts::none()
        },
        StmtKind::If(e, a, b, join) => Parts {
            guard: Some(e),
            state: Some(join),
            nested: Nested::Either(a.as_slice(), b.as_slice()),
            ..Parts::none()
        },
        StmtKind::While(e, inv, b) => Parts {
            guard: Some(e),
            state: Some(inv),
            nested: Nested::Turn(b.as_slice()),
            ..Parts::none()
        },
        StmtKind::Note(j) => Parts {
            state: Some(j),
            ..Parts::none()
        },
        StmtKind::Output(e) => Parts {
            printed: Some(e),
            ..Parts::none()
        },
    }
}

impl<'p> Parts<'p> {
    /// Of a statement that has no part.
    fn none() -> Parts<'p>
        ensures { spec.parts_of result ≡ spec.no_parts }
    {
        Parts {
            store: None,
            guard: None,
            printed: None,
            taken: None,
            returned: None,
            state: None,
            nested: Nested::None,
        }
    }

    /// What is evaluated: a value, a guard or what is put out.
    pub fn evaluated(&self) -> Option<&'p Expr>
        ensures { option_map (λ e. term e.now) result ≡ spec.evaluated (spec.parts_of self.now) }
    {
        match (self.store, self.guard) {
            (Some(store), _) => Some(store.value),
            (None, Some(guard)) => Some(guard),
            (None, None) => self.printed,
        }
    }

    /// The guard that doesn't hold behind the statement, as that of a loop.
    pub fn left_guard(&self) -> Option<&'p Expr>
        ensures { option_map (λ e. term e.now) result ≡ spec.left_guard (spec.parts_of self.now).nested (spec.parts_of self.now).guard }
    {
        match self.nested {
            Nested::Turn(_) => self.guard,
            Nested::None | Nested::Either(_, _) => None,
        }
    }

    /// The value that is stored without a type of its own.
    pub fn untyped(&self) -> Option<&'p Expr>
        ensures { option_map (λ e. term e.now) result ≡ spec.untyped (spec.parts_of self.now).store }
    {
        match &self.store {
            Some(store) => match store.written {
                None => Some(store.value),
                Some(_) => None,
            },
            None => None,
        }
    }
}
