//! Tokens as declarations and as whole programs.

ghost use Rattle.std.specs.Prelude.{◌≡◌, ◌≤◌, length, map, List, option_map};
ghost use Rattle.cov_expr.specs.declared.kind.Kind.TheVariants as kinds;
ghost use Rattle.cov_grammar.specs.Shapes.{opt, many};
ghost use Rattle.cov_grammar.specs.Grammar as grammar;
ghost use Rattle.cov_grammar.specs.Reading.{reading};
ghost use Rattle.cov_grammar.specs.ReaderAnswers.{Gives, Shorter};
ghost use Rattle.cov_read.specs.Inside.Behind as behind;
ghost use Rattle.cov_read.specs.Inside.PartViews.{lock_parts, thread_parts};
ghost use Rattle.cov_read.specs.DeclViews as decls;

use crate::decl::{ClassDecl, Pair, PlacedLock, PlacedProgram, PlacedThread, PlacedVariable};
use crate::stmt::{Braces, PlacedStmt};
use crate::stmts::{read_block, read_whole_behind};
use cov_expr::List;
use cov_grammar::{Kind, Stop, TokenReader};
use std::alloc::Global;

#[tactic(auto, unfolding(cov_grammar::specs::Grammar::class))]
fn read_class(reader: &mut TokenReader<'_>, alloc: Global) -> Result<ClassDecl, Stop>
    ensures reads { Gives decls.class reader.new result (reading grammar.class reader.old) }
    ensures shorter { length reader.new ≤ length reader.old }
{
    if let Some(_) = reader.take(Kind::Low) {
        return match read_whole_behind(reader, alloc, Kind::When)? {
            Some(whole) => Ok(ClassDecl::When(whole)),
            None => Ok(ClassDecl::Low),
        };
    }
    reader.expect(Kind::High)?;
    Ok(ClassDecl::High)
}

#[tactic(auto, unfolding(cov_grammar::specs::Grammar::var_decl))]
fn read_variable(reader: &mut TokenReader<'_>, alloc: Global) -> Result<PlacedVariable, Stop>
    ensures reads { Gives decls.var reader.new result (reading grammar.var_decl reader.old) }
    ensures shorter { Shorter reader.old reader.new result }
{
    reader.expect(Kind::Var)?;
    let name = reader.expect(Kind::Name)?;
    reader.expect(Kind::Colon)?;
    let class = read_class(reader, alloc)?;
    reader.expect(Kind::Semicolon)?;
    Ok(PlacedVariable {
        name: name.value,
        at: name.at,
        class,
    })
}

/// The number of a name.
fn read_name(reader: &mut TokenReader<'_>) -> Result<u32, Stop>
    ensures reads { Gives decls.number reader.new result (reading grammar.name reader.old) }
    ensures shorter { Shorter reader.old reader.new result }
{
    Ok(reader.expect(Kind::Name)?.value)
}

#[tactic(auto, unfolding(cov_grammar::specs::Grammar::names))]
fn read_names(reader: &mut TokenReader<'_>, alloc: Global) -> Result<List<u32>, Stop>
    ensures reads { Gives (map decls.number) reader.new result (reading grammar.names reader.old) }
    ensures shorter { length reader.new ≤ length reader.old }
{
    read_name_list(reader, alloc)
}

fn read_name_list(reader: &mut TokenReader<'_>, alloc: Global) -> Result<List<u32>, Stop>
    ensures reads { Gives (map decls.number) reader.new result (reading (grammar.separated kinds.Comma grammar.name) reader.old) }
    ensures shorter { length reader.new ≤ length reader.old }
{
    let mut list = List::new(alloc);
    let first = read_name(reader)?;
    list.push(first)?;
    'items: while let Some(_) = reader.take(Kind::Comma) {
        let next = read_name(reader)?;
        list.push(next)?;
    }
    Ok(list)
}

/// Names behind a word, if it is next.
fn read_names_behind(
    reader: &mut TokenReader<'_>,
    alloc: Global,
    word: Kind,
) -> Result<List<u32>, Stop>
    ensures reads { Gives (map decls.number) reader.new result (reading (grammar.listed (grammar.◌▸◌ word grammar.names)) reader.old) }
    ensures shorter { length reader.new ≤ length reader.old }
{
    if let Some(_) = reader.take(word) {
        read_names(reader, alloc)
    } else {
        Ok(List::new(alloc))
    }
}

/// Names to be hidden behind a word, if it is next.
fn read_hidden_behind(
    reader: &mut TokenReader<'_>,
    alloc: Global,
    word: Kind,
) -> Result<List<u32>, Stop>
    ensures reads { Gives (map decls.number) reader.new result (reading (grammar.listed (grammar.◌▸◌ word (grammar.◌▸◌ kinds.Hide grammar.names))) reader.old) }
    ensures shorter { length reader.new ≤ length reader.old }
{
    if let Some(_) = reader.take(word) {
        reader.expect(Kind::Hide)?;
        read_names(reader, alloc)
    } else {
        Ok(List::new(alloc))
    }
}

/// A lock without its word and its semicolon.
fn read_lock_parts(reader: &mut TokenReader<'_>, alloc: Global) -> Result<PlacedLock, Stop>
    ensures reads { Gives lock_parts reader.new result (reading behind.lock_parts reader.old) }
    ensures shorter { length reader.new ≤ length reader.old }
{
    let name = reader.expect(Kind::Name)?;
    let nowrite = read_names_behind(reader, alloc, Kind::Nowrite)?;
    let hide = read_names_behind(reader, alloc, Kind::Hide)?;
    let inv = read_whole_behind(reader, alloc, Kind::Inv)?;
    Ok(PlacedLock {
        name: name.value,
        at: name.at,
        nowrite,
        hide,
        inv,
    })
}

#[tactic(auto, unfolding(cov_grammar::specs::Grammar::lock_decl))]
fn read_lock(reader: &mut TokenReader<'_>, alloc: Global) -> Result<PlacedLock, Stop>
    ensures reads { Gives decls.lock reader.new result (reading grammar.lock_decl reader.old) }
    ensures shorter { Shorter reader.old reader.new result }
{
    reader.expect(Kind::Lock)?;
    let lock = read_lock_parts(reader, alloc)?;
    reader.expect(Kind::Semicolon)?;
    Ok(lock)
}

#[tactic(auto, unfolding(cov_grammar::specs::Grammar::modes_behind))]
fn read_modes_behind(reader: &mut TokenReader<'_>, alloc: Global, word: Kind) -> Result<Pair, Stop>
    ensures reads { Gives decls.pair reader.new result (reading (grammar.modes_behind word) reader.old) }
    ensures shorter { length reader.new ≤ length reader.old }
{
    if let Some(_) = reader.take(Kind::Nowrite) {
        let nowrite = read_names(reader, alloc)?;
        let hide = read_hidden_behind(reader, alloc, word)?;
        return Ok(Pair { nowrite, hide });
    }
    reader.expect(Kind::Hide)?;
    let hide = read_names(reader, alloc)?;
    Ok(Pair {
        nowrite: List::new(alloc),
        hide,
    })
}

#[tactic(auto, unfolding(cov_grammar::specs::Grammar::two_modes))]
fn read_two_modes(reader: &mut TokenReader<'_>, alloc: Global, word: Kind) -> Result<Pair, Stop>
    ensures reads { Gives decls.pair reader.new result (reading (grammar.two_modes word) reader.old) }
    ensures shorter { length reader.new ≤ length reader.old }
{
    if let Some(_) = reader.take(word) {
        read_modes_behind(reader, alloc, word)
    } else {
        Ok(Pair {
            nowrite: List::new(alloc),
            hide: List::new(alloc),
        })
    }
}

/// What stands behind the name of a thread: what it assumes, what it guarantees, and its block.
fn read_thread_parts(
    reader: &mut TokenReader<'_>,
    alloc: Global,
) -> Result<(Pair, Pair, (Braces, List<PlacedStmt>)), Stop>
    ensures reads { Gives thread_parts reader.new result (reading behind.thread_parts reader.old) }
    ensures shorter { length reader.new ≤ length reader.old }
{
    let assumes = read_two_modes(reader, alloc, Kind::Assume)?;
    let guarantees = read_two_modes(reader, alloc, Kind::Guarantee)?;
    let block = read_block(reader, alloc)?;
    Ok((assumes, guarantees, block))
}

#[tactic(auto, unfolding(cov_grammar::specs::Grammar::thread_decl))]
fn read_thread(reader: &mut TokenReader<'_>, alloc: Global) -> Result<PlacedThread, Stop>
    ensures reads { Gives decls.thread reader.new result (reading grammar.thread_decl reader.old) }
    ensures shorter { Shorter reader.old reader.new result }
{
    reader.expect(Kind::Thread)?;
    let name = reader.expect(Kind::Name)?;
    let (assumes, guarantees, (braces, body)) = read_thread_parts(reader, alloc)?;
    Ok(PlacedThread {
        name: name.value,
        at: name.at,
        assumes,
        guarantees,
        braces,
        body,
    })
}

fn read_variables(reader: &mut TokenReader<'_>, alloc: Global) -> Result<List<PlacedVariable>, Stop>
    ensures reads { Gives (map decls.var) reader.new result (reading (many grammar.var_decl) reader.old) }
    ensures shorter { length reader.new ≤ length reader.old }
{
    let mut list = List::new(alloc);
    'items: while reader.at(Kind::Var) {
        let next = read_variable(reader, alloc)?;
        list.push(next)?;
    }
    Ok(list)
}

fn read_locks(reader: &mut TokenReader<'_>, alloc: Global) -> Result<List<PlacedLock>, Stop>
    ensures reads { Gives (map decls.lock) reader.new result (reading (many grammar.lock_decl) reader.old) }
    ensures shorter { length reader.new ≤ length reader.old }
{
    let mut list = List::new(alloc);
    'items: while reader.at(Kind::Lock) {
        let next = read_lock(reader, alloc)?;
        list.push(next)?;
    }
    Ok(list)
}

fn read_threads(reader: &mut TokenReader<'_>, alloc: Global) -> Result<List<PlacedThread>, Stop>
    ensures reads { Gives (map decls.thread) reader.new result (reading (many grammar.thread_decl) reader.old) }
    ensures shorter { length reader.new ≤ length reader.old }
{
    let mut list = List::new(alloc);
    'items: while reader.at(Kind::Thread) {
        let next = read_thread(reader, alloc)?;
        list.push(next)?;
    }
    Ok(list)
}

/// The number of the version that a text names, if it names one.
#[tactic(auto, unfolding(cov_grammar::specs::Grammar::version))]
fn read_version(reader: &mut TokenReader<'_>) -> Result<Option<u32>, Stop>
    ensures reads { Gives (option_map decls.number) reader.new result (reading (opt grammar.version) reader.old) }
    ensures shorter { length reader.new ≤ length reader.old }
{
    if let Some(_) = reader.take(Kind::Version) {
        let number = reader.expect(Kind::Number)?;
        reader.expect(Kind::Semicolon)?;
        Ok(Some(number.value))
    } else {
        Ok(None)
    }
}

/// A whole program. A text that names its version is of version 2.
#[tactic(auto, unfolding(cov_grammar::specs::Grammar::program))]
pub fn read_program(reader: &mut TokenReader<'_>, alloc: Global) -> Result<PlacedProgram, Stop>
    ensures reads { Gives decls.program reader.new result (reading grammar.program reader.old) }
    ensures shorter { length reader.new ≤ length reader.old }
{
    let version = match read_version(reader)? {
        Some(_) => 2,
        None => 1,
    };
    let vars = read_variables(reader, alloc)?;
    let locks = read_locks(reader, alloc)?;
    let threads = read_threads(reader, alloc)?;
    Ok(PlacedProgram {
        version,
        vars,
        locks,
        threads,
    })
}
