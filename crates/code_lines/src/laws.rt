//! Laws of the lines that stand under a statement: functions with no body.

ghost use Rattle.std.specs.Prelude.{◌≡◌, ◌++◌, ◌<◌, ℕ, [], List, get_or, length};
ghost use Rattle.code_lines.specs.CodeLines.{bodies_of};
ghost use Rattle.code_lines.specs.CodeShares.{behind_block, block_shares};
ghost use Rattle.code_lines.specs.CompiledShares.{AreInRow, cmds_shares, lines_of};
ghost use Rattle.compiled_code.specs.Compiled.{thread_lines};
ghost use Rattle.cov_ast.specs.LocksAlong.{no_locks};
ghost use Rattle.cov_ast.specs.Plain.{plain, plain_block};
ghost use Rattle.cov_ast.specs.Syntax as syntax;
ghost use Rattle.regalloc.specs.Plan.{start};
ghost use Rattle.risc_machine.specs.declared.parts.Line.{Line};

/// Of any code every line is told once, in order, under a statement or behind all of them, and each share of a statement at its position.
pub fn each_line_is_told()
    ensures lines { (b : syntax.Block) (ls : List Line) → lines_of (block_shares (length ls) b ls) ++ behind_block b ls ≡ ls }
    ensures positions { (b : syntax.Block) (ls : List Line) → AreInRow 0 (block_shares (length ls) b ls) }
{}

/// Of compiled code the lines under a statement are those that the compiler makes for it, and none is left behind the last statement.
pub fn compiled_lines_are_of_their_statements()
    ensures shares { (p : syntax.Program) (t : ℕ) → t < length p.threads →
        block_shares (length (thread_lines (plain p) t)) (get_or (bodies_of p.threads) t syntax.done) (thread_lines (plain p) t)
        ≡ cmds_shares (plain p) t (plain_block (get_or (bodies_of p.threads) t syntax.done)) (no_locks (plain p)) start 0 }
    ensures none_left { (p : syntax.Program) (t : ℕ) → t < length p.threads →
        behind_block (get_or (bodies_of p.threads) t syntax.done) (thread_lines (plain p) t) ≡ [] }
{}
