//! The uses of names of a text into which certificates are put.

ghost use Rattle.std.specs.Prelude.{◌≡◌, ◌∷◌, [], ◌++◌, flat_map, length, map, IfOk, OnOk};
ghost use Rattle.cov_ast.specs.Ready.{uses_in_class, uses_in_lock, uses_in_modes};
ghost use Rattle.cov_ast.specs.View as view;
ghost use Rattle.annotate.specs.AnnotatedText.{part_of_cert, part_of_new, parts_in, parts_in_block, parts_in_stm, parts_in_threads, parts_of_proofs, stays, uses_with};
ghost use Rattle.annotate.specs.Inside.Choosing.{chosen_at, chosen_in, lent_choice, view_choice};
ghost use Rattle.annotate.specs.Inside.Going.{Goes, Makes, parts_in_stmt};
ghost use Rattle.annotate.specs.WithCertificates as spec;
ghost use Rattle.annotate.specs.declared.uses.Way.TheVariants.{Keep};

use crate::choices::{Choice, ThreadChoices};
use crate::placing::{chosen_for, for_others, lent_choices};
use crate::uses::{Uses, Way};
use cov_ast::{NameUse, Parsed, Proof, Stmt, StmtKind, ThreadDecl};
use cov_expr::{List, NoMemory};
use statement_parts::parts_of;
use std::alloc::Global;

/// The uses of names of a text into which certificates are put that are chosen for its threads. Each statement, and each use, is come by once.
pub fn made_uses(
    alloc: Global,
    p: &Parsed,
    chosen: &[ThreadChoices],
) -> Result<List<NameUse>, NoMemory>
    requires { length chosen.now ≡ length p.now.threads }
    ensures { IfOk result (λ made. made ≡ uses_with (parts_in (chosen_in chosen.now) (view.parsed p.now)) p.now.uses) }
{
    let mut uses = Uses {
        rest: p.uses.as_slice(),
        made: List::new(alloc),
    };
    uses.keep_declarations(p)?;
    uses.add_threads(alloc, chosen, p.threads.as_slice())?;
    let Uses { rest: _, made } = uses;
    Ok(made)
}

impl Uses<'_> {
    /// The uses in declarations of variables and locks.
    fn keep_declarations(&mut self, p: &Parsed) -> Result<(), NoMemory>
        ensures { OnOk result (Goes Keep
            (flat_map (λ v. uses_in_class v.class) (view.parsed p.now).vars ++ flat_map uses_in_lock (view.parsed p.now).locks) self.old self.new) }
    {
        self.keep_vars(p.vars.as_slice())?;
        self.keep_locks(p.locks.as_slice())
    }

    /// The uses in threads, each with what is chosen for it.
    fn add_threads(
        &mut self,
        alloc: Global,
        chosen: &[ThreadChoices],
        threads: &[ThreadDecl],
    ) -> Result<(), NoMemory>
        requires { length chosen.now ≡ length threads.now }
        ensures { OnOk result (Makes (parts_in_threads (chosen_in chosen.now) 0 (map view.thread threads.now)) self.old self.new) }
    {
        for t in 0..threads.len() {
            self.add_thread(alloc, &chosen[t], &threads[t])?;
        }
        Ok(())
    }

    fn add_thread(
        &mut self,
        alloc: Global,
        chosen: &ThreadChoices,
        thread: &ThreadDecl,
    ) -> Result<(), NoMemory>
        ensures { OnOk result (Makes (stays (uses_in_modes (view.modes thread.now.modes)) ∷ parts_in_block (chosen_at chosen.now) (view.block thread.now.body)) self.old self.new) }
    {
        self.keep_modes(&thread.modes)?;
        self.add_block(alloc, chosen, thread.body.as_slice())
    }

    /// The uses in statements, each with what is chosen for its place.
    #[cycle(blocks)]
    fn add_block(
        &mut self,
        alloc: Global,
        chosen: &ThreadChoices,
        body: &[Stmt],
    ) -> Result<(), NoMemory>
        ensures { OnOk result (Makes (parts_in_block (chosen_at chosen.now) (view.block body.now)) self.old self.new) }
    {
        for stmt in body {
            self.add_stmt(alloc, chosen, stmt)?;
        }
        Ok(())
    }

    #[cycle(blocks)]
    fn add_stmt(
        &mut self,
        alloc: Global,
        chosen: &ThreadChoices,
        stmt: &Stmt,
    ) -> Result<(), NoMemory>
        ensures { OnOk result (Makes (parts_in_stmt (chosen_at chosen.now) (view.stmt stmt.now)) self.old self.new) }
    {
        self.add_kind(alloc, chosen, &stmt.kind)?;
        self.add_proofs(alloc, chosen.at(stmt.at), stmt.at, stmt.proofs.as_slice())
    }

    #[cycle(blocks)]
    fn add_kind(
        &mut self,
        alloc: Global,
        chosen: &ThreadChoices,
        kind: &StmtKind,
    ) -> Result<(), NoMemory>
        ensures { OnOk result (Makes (parts_in_stm (chosen_at chosen.now) (view.kind kind.now)) self.old self.new) }
    {
        match kind {
            StmtKind::If(e, a, b, join) => {
                self.expr(Way::Keep, e)?;
                self.add_block(alloc, chosen, a.as_slice())?;
                self.add_block(alloc, chosen, b.as_slice())?;
                self.keep_state(join)
            }
            StmtKind::While(e, inv, body) => {
                self.keep_guard(e, inv)?;
                self.add_block(alloc, chosen, body.as_slice())
            }
            _ => self.keep_parts(&parts_of(kind)),
        }
    }

    /// The uses in the proofs of a statement at a place, and in those that are new.
    fn add_proofs(
        &mut self,
        alloc: Global,
        chosen: &[Choice],
        at: u32,
        proofs: &[Proof],
    ) -> Result<(), NoMemory>
        ensures { OnOk result (Makes (parts_of_proofs at (map view_choice chosen.now) (map view.proof proofs.now)) self.old self.new) }
    {
        let mut left = lent_choices(alloc, chosen)?;
        for proof in proofs {
            left = self.add_proof(alloc, left, at, proof)?;
        }
        self.add_new(left.as_slice(), at)
    }

    /// The uses in a proof, which gets the certificate that is chosen for its number. What is chosen for other numbers.
    fn add_proof<'c>(
        &mut self,
        alloc: Global,
        left: List<&'c Choice>,
        at: u32,
        proof: &Proof,
    ) -> Result<List<&'c Choice>, NoMemory>
        ensures { IfOk result (λ now. (map lent_choice now ≡ spec.for_others proof.now.number (map lent_choice left.entry))
            × Makes (part_of_cert at (view.proof proof.now).cert (spec.chosen_for (map lent_choice left.entry) proof.now.number) ∷ []) self.old self.new) }
    {
        match chosen_for(left.as_slice(), proof.number) {
            None => {
                self.cert(Way::Keep, &proof.cert)?;
                Ok(left)
            }
            Some(cert) => {
                self.cert(Way::Pass, &proof.cert)?;
                self.cert(Way::Add(at), cert)?;
                for_others(alloc, proof.number, left.as_slice())
            }
        }
    }

    /// The uses in new proofs.
    fn add_new(&mut self, chosen: &[&Choice], at: u32) -> Result<(), NoMemory>
        ensures { OnOk result (Makes (map (part_of_new at) (map lent_choice chosen.now)) self.old self.new) }
    {
        for choice in chosen {
            self.cert(Way::Add(at), &choice.cert)?;
        }
        Ok(())
    }
}
