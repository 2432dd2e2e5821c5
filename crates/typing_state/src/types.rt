//! The types of all variables of a point, which copies of it share.

ghost use Rattle.std.specs.Prelude.{◌≡◌, ◌<◌, ◌≤◌, ◌||◌, ℕ, true, false, [], ◌∷◌, ◌++◌, length, map, option_copied, option_map, get_or, set, is_some, not, IfOk, IfSome, OnOk, None, if◌then◌else◌};
ghost use Rattle.std.specs.List.{list_all};
ghost use Rattle.cov_expr.specs.Trees as tree;
ghost use Rattle.cov_expr.specs.declared.limits.TheConstants.{MOST_VARIABLES};
ghost use Rattle.cov_expr.specs.View.{term};
ghost use Rattle.cov_ast.specs.Tables.{has};
ghost use Rattle.cov_ast.specs.View as view;
ghost use Rattle.point_law.specs.After.{listed_or, retyped};
ghost use Rattle.typing_state.specs.Groups.{is_free};
ghost use Rattle.point_law.specs.Terms.{is_small, is_small_type, is_closed_type};
ghost use Rattle.typing_state.specs.Next.{AreDone};

use crate::groups::{GROUP_SIZE, Groups};
use crate::mentioned::mentioned;
use cov_ast::Retype;
use cov_expr::{Expr, List, MOST_NODES, MOST_VARIABLES, NoMemory, closed, copy, nodes_at_most};
use mode_state::Mask;
use std::alloc::Global;
use std::marker::Model;
use std::rc::Rc;

/// A type of a variable, whether it is small, and what it mentions. Contracts see it as its expression.
pub struct Type {
    expr: Expr,
    small: bool,
    closed: bool,
    /// The variables that it mentions, of as many as a program may have.
    mentioned: Mask,
}

impl Drop for Type {
    fn drop(self) {
        let Type {
            expr,
            small: _,
            closed: _,
            mentioned: _,
        } = self;
        drop(expr);
    }
}

impl Model for Type {
    ghost use Rattle.std.specs.Prelude.{◌≡◌};
    ghost use Rattle.std.specs.Coded.{codes};
    ghost use Rattle.cov_expr.specs.contracts.expr.Expr as e;
    ghost use Rattle.cov_expr.specs.declared.expr.Expr.{Expr};
    ghost use Rattle.cov_expr.specs.View.{term};
    ghost use Rattle.cov_expr.specs.declared.limits.TheConstants.{MOST_VARIABLES};
    ghost use Rattle.cov_expr.specs.Trees.{is_closed, mentions};
    ghost use Rattle.cov_ast.specs.Tables.{table};
    ghost use Rattle.point_law.specs.Terms.{is_small};

    ghost Value = { Expr };

    ghost coded = { Prim.hlevel (codes, e.the_row.coded) };

    ghost view = { λ q. q.expr };

    ghost invariant = { λ q. (q.small ≡ is_small (term q.expr)) × (q.closed ≡ is_closed (term q.expr))
        × (q.mentioned ≡ table MOST_VARIABLES (mentions (term q.expr))) };
}

impl Type {
    /// A type that points may share.
    pub fn shared(alloc: Global, expr: Expr) -> Result<Rc<Type, Global>, NoMemory>
        ensures { IfOk result (λ made. made.value ≡ expr) }
    {
        let small = nodes_at_most(&expr, MOST_NODES);
        let closed = closed(&expr);
        let mentioned = mentioned(&expr);
        let made = Type {
            expr,
            small,
            closed,
            mentioned,
        };
        Ok(Rc::new(alloc, made)?)
    }

    fn expr(&self) -> &Expr
        ensures { result.now ≡ self.now }
    {
        &self.expr
    }

    fn is_small(&self) -> bool
        ensures { result ≡ is_small (term self.now) }
    {
        self.small
    }

    /// Whether it mentions no variable.
    pub fn is_closed(&self) -> bool
        ensures { result ≡ tree.is_closed (term self.now) }
    {
        self.closed
    }

    /// Whether a variable is mentioned.
    fn mentions(&self, x: u32) -> bool
        requires { x < MOST_VARIABLES }
        ensures { result ≡ tree.mentions (term self.now) x }
    {
        self.mentioned.has(x)
    }

    /// Adds the variables that it mentions, of as many as a program may have, to a set.
    pub fn add_mentioned(&self, set: &mut Mask)
        requires { length set.old ≡ MOST_VARIABLES }
        ensures length { length set.new ≡ MOST_VARIABLES }
        ensures mentioned { (x : ℕ) → x < MOST_VARIABLES → has set.new x ≡ (has set.old x || tree.mentions (term self.now) x) }
    {
        set.insert_set(&self.mentioned);
    }
}

/// Of each variable its type, if it has one, and how many of them are large. Copies share the types. Contracts see the list of
/// the types.
pub struct Types {
    known: List<Option<Rc<Type, Global>>>,
    large: usize,
    /// Those whose type mentions a variable are among these.
    varying: Mask,
    /// Those that the types mention.
    groups: Groups,
}

impl Drop for Types {
    fn drop(self) {
        let Types {
            known,
            large: _,
            varying: _,
            groups,
        } = self;
        drop(known);
        drop(groups);
    }
}

impl Model for Types {
    ghost use Rattle.std.specs.Prelude.{◌≡◌, ◌<◌, ℕ, List, Option, None, length, map, not, option_map, count_by, get_or, true, false};
    ghost use Rattle.cov_ast.specs.Tables.{has};
    ghost use Rattle.std.specs.Coded.{codes};
    ghost use Rattle.cov_expr.specs.contracts.expr.Expr as e;
    ghost use Rattle.cov_expr.specs.declared.expr.Expr.{Expr};
    ghost use Rattle.cov_expr.specs.View.{term};
    ghost use Rattle.cov_expr.specs.declared.limits.TheConstants.{MOST_VARIABLES};
    ghost use Rattle.typing_state.specs.Groups.{AreGrouped};
    ghost use Rattle.point_law.specs.Terms.{is_small_type, is_closed_type};

    ghost Value = { List (Option Expr) };

    ghost coded = { Prim.hlevel (codes, e.the_row.coded) };

    ghost view = { λ s. map (option_map (λ q. q.value)) s.known };

    ghost invariant = { λ s. (s.large ≡ count_by (λ q. not (is_small_type (option_map (λ q. term q.value) q))) s.known)
        × (length s.varying ≡ MOST_VARIABLES) × ((x : ℕ) → x < MOST_VARIABLES → has s.varying x ≡ false
        → is_closed_type (get_or (map (option_map term) (map (option_map (λ q. q.value)) s.known)) x None) ≡ true)
        × AreGrouped s.groups (map (option_map term) (map (option_map (λ q. q.value)) s.known)) };
}

impl Types {
    /// No variables.
    pub fn new(alloc: Global) -> Result<Self, NoMemory>
        ensures { IfOk result (λ made. made ≡ []) }
    {
        Ok(Types {
            known: List::new(alloc),
            large: 0,
            varying: Mask::new(MOST_VARIABLES as u32),
            groups: Groups::new(alloc)?,
        })
    }

    /// The same types.
    pub fn copy(&self, alloc: Global) -> Result<Self, NoMemory>
        ensures { IfOk result (λ made. made ≡ self.now) }
    {
        Ok(Types {
            known: share_all(alloc, self.known.as_slice())?,
            large: self.large,
            varying: self.varying.copy(),
            groups: self.groups.copy(alloc)?,
        })
    }

    /// Adds a variable with its type, if it has one.
    pub fn push(&mut self, q: Option<Rc<Type, Global>>) -> Result<(), NoMemory>
        ensures { OnOk result (map (option_map term) self.new ≡ map (option_map term) self.old ++ option_map (λ q. term q.value) q ∷ []) }
    {
        let large = count_large(&q);
        let varies = is_varying(&q);
        let index = self.known.len();
        self.groups.mark(index, &q);
        self.known.push(q)?;
        if index < MOST_VARIABLES {
            self.varying.put(index as u32, varies);
        }
        // (there are no more large ones than variables)
        let _count = self.known.len();
        self.large += large;
        Ok(())
    }

    /// The type of a variable, if it has one.
    pub fn get(&self, x: u32) -> Option<&Expr>
        ensures { option_map term (option_copied result) ≡ get_or (map (option_map term) self.now) x None }
    {
        match self.known.as_slice().get(x as usize) {
            Some(q) => expr_of(q),
            None => None,
        }
    }

    /// Whether a variable has a type.
    pub fn has(&self, x: u32) -> bool
        ensures { result ≡ is_some (get_or (map (option_map term) self.now) x None) }
    {
        self.get(x).is_some()
    }

    /// Gives a variable a type, or takes its type.
    pub fn set(&mut self, x: u32, q: Option<Rc<Type, Global>>)
        ensures { map (option_map term) self.new ≡ set (map (option_map term) self.old) x (option_map (λ q. term q.value) q) }
    {
        let index = x as usize;
        if index < self.known.len() {
            let before = count_large(&self.known.as_slice()[index]);
            let after = count_large(&q);
            let varies = is_varying(&q);
            self.groups.mark(index, &q);
            self.known.set(index, q);
            self.varying.put(x, varies);
            self.large = self.large - before + after;
        }
    }

    /// The first variable, of as many as a program may have and from a number on, whose type may mention a variable.
    pub fn next_varying(&self, from: u32) -> Option<u32>
        ensures { AreDone (λ k. is_closed_type (get_or (map (option_map term) self.now) k None)) from MOST_VARIABLES result }
    {
        self.varying.next_from(from)
    }

    /// The first variable, of as many as a program may have and from a number on, whose type mentions another one. Of a group none
    /// of whose types mentions it no variable is looked at.
    pub fn next_mentioning(&self, x: u32, from: u32) -> Option<u32>
        requires { x < MOST_VARIABLES }
        ensures done { AreDone (λ k. is_free x (get_or (map (option_map term) self.now) k None)) from MOST_VARIABLES result }
        ensures mentioning { IfSome result (λ z. is_free x (get_or (map (option_map term) self.now) z None) ≡ false) }
    {
        let mut start = from;
        while let Some(z) = self.next_varying(start) {
            let next = self.past_free(z, x);
            if next == z {
                return Some(z);
            }
            start = next;
        }
        None
    }

    /// A number up to which no type from a variable on mentions another variable. It is the variable itself exactly where its
    /// type does.
    fn past_free(&self, z: u32, x: u32) -> u32
        requires small { x < MOST_VARIABLES }
        requires below { z < MOST_VARIABLES }
        ensures further { z ≤ result }
        ensures free { (k : ℕ) → z ≤ k → k < result → k < MOST_VARIABLES → is_free x (get_or (map (option_map term) self.now) k None) ≡ true }
        ensures stays { result ≡ z → is_free x (get_or (map (option_map term) self.now) z None) ≡ false }
    {
        let group = (z / GROUP_SIZE) as usize;
        let next = self.groups.next_with(x, group);
        if group < next {
            return next as u32 * GROUP_SIZE;
        }
        self.past_free_of_group(z, x)
    }

    /// The same of the group alone to which this variable belongs.
    fn past_free_of_group(&self, z: u32, x: u32) -> u32
        requires small { x < MOST_VARIABLES }
        requires below { z < MOST_VARIABLES }
        ensures further { z ≤ result }
        ensures free { (k : ℕ) → z ≤ k → k < result → is_free x (get_or (map (option_map term) self.now) k None) ≡ true }
        ensures stays { result ≡ z → is_free x (get_or (map (option_map term) self.now) z None) ≡ false }
    {
        let end = (z / GROUP_SIZE + 1) * GROUP_SIZE;
        for k in z..end {
            if !self.is_free(k, x) {
                return k;
            }
        }
        end
    }

    /// Whether the type of a variable, if there is one, doesn't mention another variable.
    pub fn is_free(&self, z: u32, x: u32) -> bool
        requires { x < MOST_VARIABLES }
        ensures { result ≡ is_free x (get_or (map (option_map term) self.now) z None) }
    {
        match self.known.as_slice().get(z as usize) {
            Some(q) => is_free(q, x),
            None => true,
        }
    }

    /// Whether each type is small.
    pub fn are_small(&self) -> bool
        ensures { result ≡ list_all is_small_type (map (option_map term) self.now) }
    {
        self.large == 0
    }
}

fn expr_of(q: &Option<Rc<Type, Global>>) -> Option<&Expr>
    ensures { option_map term (option_copied result) ≡ option_map (λ q. term q.value) q.now }
{
    match q {
        Some(q) => Some(q.expr()),
        None => None,
    }
}

/// Whether a type, if there is one, doesn't mention a variable.
fn is_free(q: &Option<Rc<Type, Global>>, x: u32) -> bool
    requires { x < MOST_VARIABLES }
    ensures { result ≡ is_free x (option_map (λ q. term q.value) q.now) }
{
    match q {
        Some(q) => !q.mentions(x),
        None => true,
    }
}

/// One for a large type.
fn count_large(q: &Option<Rc<Type, Global>>) -> usize
    ensures { result ≡ (if is_small_type (option_map (λ q. term q.value) q.now) then 0 else 1) }
{
    match q {
        Some(q) if !q.is_small() => 1,
        Some(_) | None => 0,
    }
}

/// Whether a type mentions a variable.
fn is_varying(q: &Option<Rc<Type, Global>>) -> bool
    ensures { result ≡ not (is_closed_type (option_map (λ q. term q.value) q.now)) }
{
    match q {
        Some(q) => !q.is_closed(),
        None => false,
    }
}

fn share_all(
    alloc: Global,
    types: &[Option<Rc<Type, Global>>],
) -> Result<List<Option<Rc<Type, Global>>>, NoMemory>
    ensures { IfOk result (λ made. map (option_map (λ q. q.value)) made ≡ map (option_map (λ q. q.value)) types.now) }
{
    let mut made = List::with_capacity(alloc, types.len())?;
    for q in types {
        made.push(share(q)?)?;
    }
    Ok(made)
}

fn share(q: &Option<Rc<Type, Global>>) -> Result<Option<Rc<Type, Global>>, NoMemory>
    ensures { IfOk result (λ made. option_map (λ q. q.value) made ≡ option_map (λ q. q.value) q.now) }
{
    match q {
        Some(q) => Ok(Some(q.clone()?)),
        None => Ok(None),
    }
}

/// Puts an expression in the place of the type of a variable, if it has one.
pub fn assign_type(alloc: Global, types: &mut Types, x: u32, q: Expr) -> Result<(), NoMemory>
    ensures { OnOk result (map (option_map term) types.new
        ≡ set (map (option_map term) types.old) x (option_map (λ g. term q) (get_or (map (option_map term) types.old) x None))) }
{
    if types.has(x) {
        let shared = Type::shared(alloc, q)?;
        types.set(x, Some(shared));
    }
    Ok(())
}

/// Puts an equal expression in the place of the type of a variable, if it has one.
fn put_type(alloc: Global, types: &mut Types, x: u32, r: &Expr) -> Result<(), NoMemory>
    ensures { OnOk result (map (option_map term) types.new
        ≡ set (map (option_map term) types.old) x (option_map (λ g. term r.now) (get_or (map (option_map term) types.old) x None))) }
{
    if types.has(x) {
        let copied = copy(alloc, r)?;
        let shared = Type::shared(alloc, copied)?;
        types.set(x, Some(shared));
    }
    Ok(())
}

/// Puts listed types in the places of those that the variables have.
pub fn put_types(alloc: Global, types: &mut Types, listed: &[(u32, Expr)]) -> Result<(), NoMemory>
    ensures { OnOk result (map (option_map term) types.new ≡ retyped (listed_or (map view.typed listed.now)) (map (option_map term) types.old)) }
{
    for t in listed {
        put_type(alloc, types, t.0, &t.1)?;
    }
    Ok(())
}

/// Puts the types of `retype`s in the places of those that the variables have.
pub fn put_retypes(alloc: Global, types: &mut Types, retypes: &[Retype]) -> Result<(), NoMemory>
    ensures { OnOk result (map (option_map term) types.new ≡ retyped (listed_or (map view.retype retypes.now)) (map (option_map term) types.old)) }
{
    for r in retypes {
        put_type(alloc, types, r.var, &r.class)?;
    }
    Ok(())
}
