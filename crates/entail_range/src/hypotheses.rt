//! Hypotheses as a walk over an expression looks them up, with an index or without one.

ghost use Rattle.std.specs.Prelude.{◌≡◌, ◌++◌, IfOk, map};
ghost use Rattle.cov_expr.specs.View.{term};
ghost use Rattle.entail_range.specs.Inside.Index.{IsFit, IsIndexed, listed};
ghost use Rattle.entail_range.specs.Inside.Slots as slots;
ghost use Rattle.entail_range.specs.Range.{lent};
ghost use Rattle.entail_range.specs.Range as spec;

use crate::bounds::{limited_first, limited_more};
use crate::index::{buckets_of, slot};
use crate::interval::Bound;
use cov_expr::{Expr, List, NoMemory};
use std::alloc::Global;

/// The hypotheses of a walk over an expression, in two parts, none of which is copied. They may have an index.
#[derive(Drop)]
pub struct Hypotheses<'a> {
    pub given: &'a [Expr],
    pub more: &'a [&'a Expr],
    /// Those that may bound an expression, each at the slot of that expression.
    pub buckets: Option<Vec<List<&'a Expr>>>,
}

impl<'a> Hypotheses<'a> {
    /// Without an index, which takes no memory.
    pub fn listed(given: &'a [Expr], more: &'a [&'a Expr]) -> Hypotheses<'a>
        ensures list { listed result ≡ map term given.now ++ map lent more.now }
        ensures indexed { IsIndexed result }
    {
        Hypotheses {
            given,
            more,
            buckets: None,
        }
    }

    /// With an index, which takes memory in proportion to the hypotheses.
    pub fn indexed(
        alloc: Global,
        given: &'a [Expr],
        more: &'a [&'a Expr],
    ) -> Result<Hypotheses<'a>, NoMemory>
        ensures list { IfOk result (λ hyps. listed hyps ≡ map term given.now ++ map lent more.now) }
        ensures indexed { IfOk result IsIndexed }
    {
        let buckets = buckets_of(alloc, given, more)?;
        Ok(Hypotheses {
            given,
            more,
            buckets: Some(buckets),
        })
    }

    /// A bound, cut with what each hypothesis leaves to an expression.
    #[tactic(auto, using(crate::proofs::Sound::limited_append))]
    pub fn limited(&self, e: &Expr, key: u32, b: Bound) -> Bound
        requires indexed { IsIndexed self.now }
        requires key { key ≡ slots.key (term e.now) }
        requires fit { IsFit b }
        ensures bound { result ≡ spec.limited (listed self.now) (term e.now) b }
        ensures fit { IsFit result }
    {
        match &self.buckets {
            Some(buckets) => limited_more(buckets[slot(buckets.len(), key)].as_slice(), e, b),
            None => limited_more(self.more, e, limited_first(self.given, e, b)),
        }
    }
}
