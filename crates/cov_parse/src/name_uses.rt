//! Where a text uses names, in its order.

ghost use Rattle.std.specs.Prelude.{◌≡◌, ◌++◌, IfOk, OnOk};
ghost use Rattle.cov_text.specs.Uses as spec;

use cov_ast::NameUse;
use cov_expr::{List, NoMemory};
use cov_grammar::{Kind, Token, is};
use std::alloc::Global;

/// Every use of a name, in the order of the text.
pub fn uses(alloc: Global, tokens: &[Token]) -> Result<List<NameUse>, NoMemory>
    ensures { IfOk result (λ list. list ≡ spec.uses_of tokens.now) }
{
    let mut list = List::new(alloc);
    let mut in_thread = false;
    let mut before = Kind::Semicolon;
    for token in tokens {
        add_use(&mut list, in_thread, before, *token)?;
        in_thread = in_thread || is(Kind::Thread, token.kind);
        before = token.kind;
    }
    Ok(list)
}

/// Puts the use that a token is behind another at the end of a list.
fn add_use(
    list: &mut List<NameUse>,
    in_thread: bool,
    before: Kind,
    token: Token,
) -> Result<(), NoMemory>
    ensures { OnOk result (list.new ≡ list.old ++ spec.use_of in_thread before token) }
{
    if is(Kind::Name, token.kind) && !declares(in_thread, before) {
        list.push(NameUse {
            name: token.value,
            lock: is(Kind::Lock, before) || is(Kind::Unlock, before),
            at: token.at,
        })?;
    }
    Ok(())
}

/// Whether a name behind such a token is declared there.
#[inline(never)]
fn declares(in_thread: bool, before: Kind) -> bool
    ensures { result ≡ spec.declares in_thread before }
{
    is(Kind::Var, before) || is(Kind::Thread, before) || (!in_thread && is(Kind::Lock, before))
}
