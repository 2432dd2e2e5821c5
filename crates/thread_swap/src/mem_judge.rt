//! A judge that says what a table has.

ghost use Rattle.std.specs.Prelude.{◌≡◌, IsTrue, Ok};
ghost use Rattle.thread_swap.specs.MemJudges.{are_lawful, is_small};
ghost use Rattle.thread_swap.specs.MemJudges as spec;

use crate::judge::{Judge, Said};
use crate::row::Row;
use cov_ast::{Program, Refusal};
use cov_expr::{List, NoMemory};
use std::alloc::Global;
use typing_law::Count;
use typing_rules::statements;

/// A judge in memory: a table of what it says, by the places of threads, and what it says of each other thread. It isn't exact.
#[derive(Drop)]
pub struct MemJudge {
    rows: List<Row>,
    rest: Count,
    judged: u64,
    ghost lawful: { IsTrue (are_lawful rows) },
    ghost small: { IsTrue (is_small rest) },
}

impl MemJudge {
    /// A judge of this table, whose refusals show what their rules show, and whose counts are below 2^48. The threads of the
    /// refusals are those of which they are said.
    pub fn new(rows: List<Row>, rest: Count) -> MemJudge
        requires rows { IsTrue (are_lawful rows) }
        requires rest { IsTrue (is_small rest) }
        ensures rows { result.rows ≡ rows }
        ensures rest { result.rest ≡ rest }
        ensures judged { result.judged ≡ 0 }
    {
        MemJudge {
            rows,
            rest,
            judged: 0,
        }
    }
}

impl Judge for MemJudge {
    ghost use Rattle.thread_swap.specs.MemJudges.{by_table};
    ghost use Rattle.thread_swap.specs.Inside.TableLaws.{table_is_sound};

    ghost judging = { λ m. by_table m.rows m.rest m.judged };

    ghost sound = { λ m. table_is_sound m.rows m.rest m.judged m.lawful m.small };

    fn judge(&mut self, _alloc: Global, p: &Program, t: u32) -> Result<Said, NoMemory> {
        let thread = &p.threads.as_slice()[t as usize];
        self.judged = self
            .judged
            .saturating_add(statements(thread.body.as_slice()));
        Ok(said_of(t, listed(self.rows.as_slice(), thread.at, self.rest)))
    }

    fn judged(&self) -> u64 {
        self.judged
    }
}

/// An answer, of a thread with this number.
fn said_of(t: u32, said: Said) -> Said
    ensures { result ≡ spec.said_of t said }
{
    match said {
        Ok(count) => Ok(count),
        Err(refusal) => Err(Refusal {
            rule: refusal.rule,
            thread: Some(t),
            place: refusal.place,
            detail: refusal.detail,
        }),
    }
}

/// What a table has for a place, else so much is accepted.
fn listed(rows: &[Row], at: u32, rest: Count) -> Said
    ensures { result ≡ spec.listed_said rows.now at (Ok rest) }
{
    for row in rows {
        if row.at == at {
            return row.said;
        }
    }
    Ok(rest)
}
