//! The predicates of a point, each once, with counts of those that are false and of those that are large.

ghost use Rattle.std.specs.Prelude.{◌≡◌, ◌+◌, ◌<◌, ◌≤◌, [], if◌then◌else◌, is_some, length, map, not, filter, position, remove, take, IfOk, OnOk};
ghost use Rattle.std.specs.List.{list_all, list_any};
ghost use Rattle.cov_expr.specs.Trees as tree;
ghost use Rattle.cov_expr.specs.View.{term};
ghost use Rattle.cov_ast.specs.Plain.{plain};
ghost use Rattle.cov_ast.specs.View as view;
ghost use Rattle.cov_ast.specs.WellFormed.{IsWellFormed};
ghost use Rattle.point_law.specs.AtModes.{AtModes};
ghost use Rattle.point_law.specs.Point as point;
ghost use Rattle.point_law.specs.Terms.{distinct_terms, is_false, is_small, with_term, with_terms};

use crate::copies::copy_preds;
use crate::key::Key;
use crate::keys::{add_key, copy_keys, drop_key, index_in, keys_of};
use crate::retain::is_kept;
use cov_ast::Program;
use cov_expr::{
    Expr, List, MOST_NODES, NoMemory, closed, copy, eval, mentions, nodes_at_most, same,
};
use indexmap::IndexSet;
use mode_state::ModeState;
use std::alloc::Global;
use std::marker::Model;

/// How many expressions are compared one by one.
const FEW: usize = 8;

/// Expressions, each once. Where there are more than a few, their keys are kept in the same order, by which the index of one is
/// found. Contracts see the list of the expressions.
pub struct Predicates {
    list: List<Expr>,
    keys: Option<IndexSet<Key>>,
    /// How many of them are closed and don't hold.
    false_ones: usize,
    /// How many of them have more than 1,000 nodes.
    large_ones: usize,
}

impl Drop for Predicates {
    fn drop(self) {
        let Predicates {
            list,
            keys,
            false_ones: _,
            large_ones: _,
        } = self;
        drop(list);
        drop(keys);
    }
}

impl Model for Predicates {
    ghost use Rattle.std.specs.Prelude.{◌≡◌, List, count_by, map, not, IfSome};
    ghost use Rattle.std.specs.Coded.{codes};
    ghost use Rattle.std.specs.List.{IsDistinct};
    ghost use Rattle.std.specs.Str.{bytes_eq};
    ghost use Rattle.cov_expr.specs.contracts.expr.Expr as e;
    ghost use Rattle.cov_expr.specs.declared.expr.Expr.{Expr};
    ghost use Rattle.cov_expr.specs.View.{term};
    ghost use Rattle.typing_state.specs.Keys.{key};
    ghost use Rattle.point_law.specs.Terms.{is_false, is_small};

    ghost Value = { List Expr };

    ghost coded = { Prim.hlevel (codes, e.the_row.coded) };

    ghost view = { λ s. s.list };

    ghost invariant = { λ s. IsDistinct bytes_eq (map key (map term s.list))
        × IfSome s.keys (λ i. i.keys ≡ map key (map term s.list))
        × (s.false_ones ≡ count_by is_false (map term s.list))
        × (s.large_ones ≡ count_by (λ e. not (is_small e)) (map term s.list)) };
}

impl Predicates {
    /// None.
    pub fn new(alloc: Global) -> Self
        ensures { result ≡ [] }
    {
        Predicates {
            list: List::new(alloc),
            keys: None,
            false_ones: 0,
            large_ones: 0,
        }
    }

    /// The expressions, in the order in which they were added.
    pub fn list(&self) -> &List<Expr>
        ensures { result.now ≡ self.now }
    {
        &self.list
    }

    /// Whether one of them is closed and doesn't hold.
    pub fn has_false(&self) -> bool
        ensures { result ≡ list_any is_false (map term self.now) }
    {
        self.false_ones > 0
    }

    /// Whether each has at most 1,000 nodes.
    pub fn are_small(&self) -> bool
        ensures { result ≡ list_all is_small (map term self.now) }
    {
        self.large_ones == 0
    }

    /// The index of an expression, if it is there.
    pub fn index_of(&self, alloc: Global, e: &Expr) -> Result<Option<usize>, NoMemory>
        ensures index { IfOk result (λ index. index ≡ position (λ f. tree.same f (term e.now)) (map term self.now)) }
        ensures found { IfOk result (λ index. is_some index ≡ tree.has_term (map term self.now) (term e.now)) }
    {
        index_in(alloc, &self.keys, self.list.as_slice(), e)
    }

    /// The same expressions.
    pub fn copy(&self, alloc: Global) -> Result<Self, NoMemory>
        ensures { IfOk result (λ made. map term made ≡ map term self.now) }
    {
        Ok(Predicates {
            list: copy_preds(alloc, self.list.as_slice())?,
            keys: copy_keys(&self.keys)?,
            false_ones: self.false_ones,
            large_ones: self.large_ones,
        })
    }

    /// Adds an expression at the end, unless an equal one is there.
    pub fn add(&mut self, alloc: Global, e: Expr) -> Result<(), NoMemory>
        ensures { OnOk result (map term self.new ≡ with_term (map term self.old) (term e)) }
    {
        if self.list.len() >= FEW {
            self.add_keys(alloc)?;
        }
        self.add_next(alloc, e)
    }

    /// Makes the keys, if there are none.
    fn add_keys(&mut self, alloc: Global) -> Result<(), NoMemory>
        ensures { self.new ≡ self.old }
    {
        if self.keys.is_none() {
            self.keys = Some(keys_of(alloc, self.list.as_slice())?);
        }
        Ok(())
    }

    /// Adds an expression at the end, and its key where there are keys, unless an equal one is there.
    fn add_next(&mut self, alloc: Global, e: Expr) -> Result<(), NoMemory>
        ensures { OnOk result (map term self.new ≡ with_term (map term self.old) (term e)) }
    {
        if !add_key(alloc, &mut self.keys, self.list.as_slice(), &e)? {
            return Ok(());
        }
        let false_ones = count_false(&e);
        let large_ones = count_large(&e);
        if let Err(NoMemory) = self.list.push(e) {
            self.keys = None;
            return Err(NoMemory);
        }
        // (there are no more of either than expressions)
        let _count = self.list.len();
        self.false_ones += false_ones;
        self.large_ones += large_ones;
        Ok(())
    }

    /// Puts others in their place, each once, by first occurrence. Those with which both begin stay where they are, and no
    /// copy of them is made.
    pub fn replace(&mut self, alloc: Global, preds: &[Expr]) -> Result<(), NoMemory>
        ensures { OnOk result (map term self.new ≡ distinct_terms (map term preds.now)) }
    {
        let kept = same_beginning(self.list().as_slice(), preds);
        self.truncate(kept);
        self.tell_once();
        self.add_all(alloc, &preds[kept..])?;
        Ok(())
    }

    /// Drops those from a index on.
    fn truncate(&mut self, len: usize)
        ensures { self.new ≡ take len self.old }
    {
        let mut end = self.list().len();
        while end > len {
            end -= 1;
            self.remove(end);
        }
    }

    /// Each is there once.
    fn tell_once(&self)
        ensures { distinct_terms (map term self.now) ≡ map term self.now }
    {
        let _list = &self.list;
    }

    /// Adds copies at the end, each unless an equal one is there.
    fn add_all(&mut self, alloc: Global, preds: &[Expr]) -> Result<(), NoMemory>
        ensures { OnOk result (map term self.new ≡ with_terms (map term self.old) (map term preds.now)) }
    {
        for e in preds {
            let copied = copy(alloc, e)?;
            self.add(alloc, copied)?;
        }
        Ok(())
    }

    /// Drops those that mention a variable.
    pub fn drop_mentioning(&mut self, x: u32)
        ensures { map term self.new ≡ filter (λ r. not (tree.mentions r x)) (map term self.old) }
    {
        let mut end = self.list().len();
        while end > 0 {
            end -= 1;
            if mentions(&self.list().as_slice()[end], x) {
                self.remove(end);
            }
        }
    }

    /// Drops those that aren't over stable variables.
    pub fn drop_unstable(&mut self, p: &Program, modes: &ModeState)
        requires { IsWellFormed (view.program p.now) }
        ensures { AtModes (plain (view.program p.now)) modes.now (λ t held.
            map term self.new ≡ filter (point.is_over_stable (plain (view.program p.now)) t held) (map term self.old)) }
    {
        let mut end = self.list().len();
        while end > 0 {
            end -= 1;
            if !is_kept(p, modes, &self.list().as_slice()[end]) {
                self.remove(end);
            }
        }
    }

    /// Drops the one at a index.
    fn remove(&mut self, index: usize)
        requires { index < length self.old }
        ensures { self.new ≡ remove self.old index }
    {
        let e = self.list.remove(index);
        drop_key(&mut self.keys, index);
        self.false_ones = false_without(self.false_ones, &e);
        self.large_ones = large_without(self.large_ones, &e);
    }
}

/// With how many equal expressions two lists begin.
fn same_beginning(list: &[Expr], preds: &[Expr]) -> usize
    ensures within { (result ≤ length list.now) × (result ≤ length preds.now) }
    ensures same { map term (take result list.now) ≡ map term (take result preds.now) }
{
    let mut kept = 0;
    while kept < list.len() && kept < preds.len() {
        if !same(&list[kept], &preds[kept]) {
            return kept;
        }
        kept += 1;
    }
    kept
}

/// One for an expression that is closed and doesn't hold.
fn count_false(e: &Expr) -> usize
    ensures { result ≡ (if is_false (term e.now) then 1 else 0) }
{
    (closed(e) && eval(e, &[]) == 0) as usize
}

/// How many are closed and don't hold once an expression is dropped. Where there are none it isn't looked at.
fn false_without(count: usize, e: &Expr) -> usize
    requires { (if is_false (term e.now) then 1 else 0) ≤ count }
    ensures { result + (if is_false (term e.now) then 1 else 0) ≡ count }
{
    if count == 0 {
        return 0;
    }
    count - count_false(e)
}

/// How many have more than 1,000 nodes once an expression is dropped. Where there are none its nodes aren't counted.
fn large_without(count: usize, e: &Expr) -> usize
    requires { (if not (is_small (term e.now)) then 1 else 0) ≤ count }
    ensures { result + (if not (is_small (term e.now)) then 1 else 0) ≡ count }
{
    if count == 0 {
        return 0;
    }
    count - count_large(e)
}

/// One for an expression of more than 1,000 nodes.
fn count_large(e: &Expr) -> usize
    ensures { result ≡ (if not (is_small (term e.now)) then 1 else 0) }
{
    !nodes_at_most(e, MOST_NODES) as usize
}
