//! The walk over the statements of a thread beside its code.

ghost use Rattle.std.specs.Prelude.{◌≡◌, ◌++◌, IfOk, OnOk, [], ◌∷◌, drop, take};
ghost use Rattle.cov_ast.specs.View as view;
ghost use Rattle.code_lines.specs.CodeShares as spec;
ghost use Rattle.code_lines.specs.Inside.{AreLeft, IsSeen, told};
ghost use Rattle.text_parts.specs.Lines.{line};

use crate::cursor::{Seen, seen_at};
use crate::rows::add_rows;
use crate::source::add_comment;
use cov_ast::{Stmt, StmtKind};
use cov_expr::{Blob, NoMemory};
use risc_machine::{Instr, Line, Parts};

/// What lines do for the statement to which they belong.
#[derive(Clone, Copy)]
pub enum Role {
    /// They are all of it.
    Whole,
    /// They are its guard, and go by it.
    Guard,
    /// They end its first block, and go past its second one.
    Past,
    /// They end its block, and go back to its guard.
    Back,
}

/// What a walk over the statements of a thread goes by: the parts of the code, the text of the program, and how many lines the thread has.
#[derive(Clone, Copy)]
pub struct Scene<'a> {
    pub parts: &'a Parts,
    pub bytes: &'a [u8],
    pub total: usize,
}

/// How many of the first lines belong together.
fn own_count(lines: &[Line]) -> usize
    ensures { result ≡ spec.own_count lines.now }
{
    for (i, line) in lines.iter().enumerate() {
        if !matches!(
            line.instr,
            Instr::Load(_, _) | Instr::MovC(_, _) | Instr::MovR(_, _) | Instr::Bin(_, _, _)
        ) {
            return i + 1;
        }
    }
    lines.len()
}

/// The first so many lines, and those behind them.
fn parted(lines: &[Line], count: usize) -> (&[Line], &[Line])
    ensures front { result.0.now ≡ take count lines.now }
    ensures behind { result.1.now ≡ drop count lines.now }
{
    if count < lines.len() {
        lines.split_at(count)
    } else {
        (lines, &[])
    }
}

impl Scene<'_> {
    /// Adds the lines of the statements of a block, of those that are left of the thread, and gives those behind them.
    #[cycle(blocks)]
    pub fn add_block<'l>(
        &self,
        body: &[Stmt],
        lines: &'l [Line],
        seen: &mut Seen,
        text: &mut Blob,
    ) -> Result<&'l [Line], NoMemory>
        requires there { AreLeft self.now lines.now }
        requires seen { IsSeen self.now.bytes.now seen.old }
        ensures text { OnOk result (text.new ≡ text.old ++ told self.now (spec.block_shares self.now.total (view.block body.now) lines.now)) }
        ensures left { IfOk result (λ left. left.now ≡ spec.behind_block (view.block body.now) lines.now) }
        ensures there { IfOk result (λ left. AreLeft self.now left.now) }
        ensures seen { OnOk result (IsSeen self.now.bytes.now seen.new) }
    {
        let mut left = lines;
        for stmt in body {
            left = self.add_statement(stmt.at, &stmt.kind, left, seen, text)?;
        }
        Ok(left)
    }

    /// Adds the lines of the statement at a place, and gives those behind them. A note has none.
    #[cycle(blocks)]
    fn add_statement<'l>(
        &self,
        at: u32,
        kind: &StmtKind,
        lines: &'l [Line],
        seen: &mut Seen,
        text: &mut Blob,
    ) -> Result<&'l [Line], NoMemory>
        requires there { AreLeft self.now lines.now }
        requires seen { IsSeen self.now.bytes.now seen.old }
        ensures text { OnOk result (text.new ≡ text.old ++ told self.now (spec.statement_shares self.now.total at (view.kind kind.now) lines.now)) }
        ensures left { IfOk result (λ left. left.now ≡ spec.behind_statement (view.kind kind.now) lines.now) }
        ensures there { IfOk result (λ left. AreLeft self.now left.now) }
        ensures seen { OnOk result (IsSeen self.now.bytes.now seen.new) }
    {
        match kind {
            StmtKind::If(_, a, b, _) => {
                let inside = self.add_own(Role::Guard, at, lines, seen, text)?;
                let number = seen.line;
                let jump = self.add_block(a.as_slice(), inside, seen, text)?;
                let second = self.add_share(Role::Past, number, at, 1, jump, text)?;
                self.add_block(b.as_slice(), second, seen, text)
            }
            StmtKind::While(_, _, a) => {
                let inside = self.add_own(Role::Guard, at, lines, seen, text)?;
                let number = seen.line;
                let jump = self.add_block(a.as_slice(), inside, seen, text)?;
                self.add_share(Role::Back, number, at, 1, jump, text)
            }
            StmtKind::Note(_) => Ok(lines),
            _ => self.add_own(Role::Whole, at, lines, seen, text),
        }
    }

    /// Adds the lines of a statement without blocks, or of a guard, and gives those behind them.
    fn add_own<'l>(
        &self,
        role: Role,
        at: u32,
        lines: &'l [Line],
        seen: &mut Seen,
        text: &mut Blob,
    ) -> Result<&'l [Line], NoMemory>
        requires there { AreLeft self.now lines.now }
        requires seen { IsSeen self.now.bytes.now seen.old }
        ensures text { OnOk result (text.new ≡ text.old ++ told self.now (spec.share self.now.total role at (spec.own_count lines.now) lines.now ∷ [])) }
        ensures left { IfOk result (λ left. left.now ≡ spec.behind_own lines.now) }
        ensures there { IfOk result (λ left. AreLeft self.now left.now) }
        ensures seen { OnOk result (seen.new ≡ record { place = at; line = line self.now.bytes.now at }) }
    {
        *seen = seen_at(self.bytes, *seen, at);
        self.add_share(role, seen.line, at, own_count(lines), lines, text)
    }

    /// Adds the first so many lines of those that are left, under a comment, and gives those behind them.
    fn add_share<'l>(
        &self,
        role: Role,
        number: usize,
        at: u32,
        count: usize,
        lines: &'l [Line],
        text: &mut Blob,
    ) -> Result<&'l [Line], NoMemory>
        requires there { AreLeft self.now lines.now }
        requires number { number ≡ line self.now.bytes.now at }
        ensures text { OnOk result (text.new ≡ text.old ++ told self.now (spec.share self.now.total role at count lines.now ∷ [])) }
        ensures left { IfOk result (λ left. left.now ≡ drop count lines.now) }
        ensures there { IfOk result (λ left. AreLeft self.now left.now) }
    {
        let from = self.total - lines.len();
        let (front, left) = parted(lines, count);
        add_comment(self.bytes, role, number, at as usize, text)?;
        add_rows(self.parts, from, front, text)?;
        Ok(left)
    }
}
