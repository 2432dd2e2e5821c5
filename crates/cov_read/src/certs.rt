//! Tokens as certificates, and as expressions with their places.

ghost use Rattle.std.specs.Prelude.{◌≡◌, ◌≤◌, length, map, IfOk, MatchOption};
ghost use Rattle.cov_expr.specs.View.{term};
ghost use Rattle.cov_expr.specs.declared.kind.Kind.TheVariants as kinds;
ghost use Rattle.cov_grammar.specs.PlacedTrees as trees;
ghost use Rattle.cov_grammar.specs.Shapes.{seq, rule, placed};
ghost use Rattle.cov_grammar.specs.Grammar as grammar;
ghost use Rattle.cov_grammar.specs.Reading.{reading, got};
ghost use Rattle.cov_grammar.specs.ReaderAnswers.{Gives, Shorter};
ghost use Rattle.cov_read.specs.Inside.Behind as behind;
ghost use Rattle.cov_read.specs.Templates.{rule_for};
ghost use Rattle.cov_read.specs.CertViews as views;

use crate::cert::{PlacedCert, Whole};
use crate::expressions::read_expr;
use cov_expr::{List, NoMemory};
use cov_grammar::{Kind, Stop, TokenReader};
use std::alloc::Global;

fn boxed_cert(alloc: Global, cert: PlacedCert) -> Result<Box<PlacedCert>, NoMemory>
    ensures { IfOk result (λ b. b.value ≡ cert) }
{
    Ok(Box::new(alloc, cert)?)
}

/// The value of a number.
pub fn read_number(reader: &mut TokenReader<'_>) -> Result<u32, Stop>
    ensures reads { Gives (λ n. n) reader.new result (reading grammar.number reader.old) }
    ensures shorter { Shorter reader.old reader.new result }
{
    Ok(reader.expect(Kind::Number)?.value)
}

/// An expression or a template with its place.
pub fn read_whole(reader: &mut TokenReader<'_>, alloc: Global, holes: bool) -> Result<Whole, Stop>
    ensures reads { Gives views.whole reader.new result (reading (placed (rule_for holes)) reader.old) }
    ensures shorter { length reader.new ≤ length reader.old }
{
    let at = reader.place(0);
    let expr = read_expr(reader, alloc, holes)?;
    Ok(Whole { at, expr })
}

/// An expression or a template in square brackets.
fn read_in_brackets(reader: &mut TokenReader<'_>, alloc: Global, holes: bool) -> Result<Whole, Stop>
    ensures reads { Gives views.whole reader.new result (reading (grammar.in_brackets (placed (rule_for holes))) reader.old) }
    ensures shorter { length reader.new ≤ length reader.old }
{
    reader.expect(Kind::OpenBracket)?;
    let whole = read_whole(reader, alloc, holes)?;
    reader.expect(Kind::CloseBracket)?;
    Ok(whole)
}

/// A certificate of one word, if one is next.
#[tactic(auto, unfolding(cov_grammar::specs::Grammar::part))]
fn take_word(reader: &mut TokenReader<'_>) -> Option<PlacedCert>
    ensures reads { MatchOption result (reading grammar.part reader.old ≡ reading (grammar.bracketed trees.cert) reader.old) (λ word. reading grammar.part reader.old ≡ got (views.cert word) reader.new) }
    ensures left { MatchOption result (reader.new ≡ reader.old) (λ word. length reader.new ≤ length reader.old) }
{
    if let Some(_) = reader.take(Kind::Auto) {
        return Some(PlacedCert::Auto);
    }
    if let Some(_) = reader.take(Kind::Calc) {
        return Some(PlacedCert::Calc);
    }
    if let Some(_) = reader.take(Kind::Refl) {
        return Some(PlacedCert::Refl);
    }
    if let Some(_) = reader.take(Kind::Ring) {
        return Some(PlacedCert::Ring);
    }
    if let Some(_) = reader.take(Kind::Range) {
        return Some(PlacedCert::Range);
    }
    None
}

#[cycle(cert)]
fn read_part(reader: &mut TokenReader<'_>, alloc: Global) -> Result<PlacedCert, Stop>
    ensures reads { Gives views.cert reader.new result (reading grammar.part reader.old) }
    ensures shorter { length reader.new ≤ length reader.old }
{
    if let Some(word) = take_word(reader) {
        return Ok(word);
    }
    reader.expect(Kind::OpenParen)?;
    let inside = read_cert(reader, alloc)?;
    reader.expect(Kind::CloseParen)?;
    Ok(inside)
}

#[cycle(cert)]
fn read_one_part(reader: &mut TokenReader<'_>, alloc: Global) -> Result<Box<PlacedCert>, Stop>
    ensures reads { Gives views.boxed reader.new result (reading grammar.part reader.old) }
    ensures shorter { length reader.new ≤ length reader.old }
{
    let part = read_part(reader, alloc)?;
    Ok(boxed_cert(alloc, part)?)
}

#[cycle(cert)]
fn read_two_parts(
    reader: &mut TokenReader<'_>,
    alloc: Global,
) -> Result<(Box<PlacedCert>, Box<PlacedCert>), Stop>
    ensures reads { Gives views.two reader.new result (reading (seq grammar.part grammar.part) reader.old) }
    ensures shorter { length reader.new ≤ length reader.old }
{
    let first = read_one_part(reader, alloc)?;
    let second = read_one_part(reader, alloc)?;
    Ok((first, second))
}

#[cycle(cert)]
#[tactic(auto, using(crate::proofs::CertLaws::rule_cert))]
pub fn read_cert(reader: &mut TokenReader<'_>, alloc: Global) -> Result<PlacedCert, Stop>
    ensures reads { Gives views.cert reader.new result (reading (rule trees.cert) reader.old) }
    ensures shorter { length reader.new ≤ length reader.old }
{
    read_certificate(reader, alloc)
}

#[cycle(cert)]
#[tactic(auto, unfolding(cov_grammar::specs::Grammar::certificate))]
fn read_certificate(reader: &mut TokenReader<'_>, alloc: Global) -> Result<PlacedCert, Stop>
    ensures reads { Gives views.cert reader.new result (reading grammar.certificate reader.old) }
    ensures shorter { length reader.new ≤ length reader.old }
{
    if let Some(_) = reader.take(Kind::Hyp) {
        return Ok(PlacedCert::Hyp(read_number(reader)?));
    }
    if let Some(_) = reader.take(Kind::Clash) {
        return Ok(PlacedCert::Clash(read_number(reader)?));
    }
    if let Some(_) = reader.take(Kind::Absurd) {
        return read_absurd(reader);
    }
    if let Some(_) = reader.take(Kind::And) {
        return read_and(reader, alloc);
    }
    read_more_certs(reader, alloc)
}

#[cycle(cert)]
#[tactic(auto, unfolding(cov_grammar::specs::Grammar::more_certs))]
fn read_more_certs(reader: &mut TokenReader<'_>, alloc: Global) -> Result<PlacedCert, Stop>
    ensures reads { Gives views.cert reader.new result (reading grammar.more_certs reader.old) }
    ensures shorter { length reader.new ≤ length reader.old }
{
    if let Some(_) = reader.take(Kind::Left) {
        return Ok(PlacedCert::Left(read_one_part(reader, alloc)?));
    }
    if let Some(_) = reader.take(Kind::Right) {
        return Ok(PlacedCert::Right(read_one_part(reader, alloc)?));
    }
    if let Some(_) = reader.take(Kind::Use) {
        return read_use(reader, alloc);
    }
    if let Some(_) = reader.take(Kind::Cases) {
        return read_cases(reader, alloc);
    }
    if let Some(_) = reader.take(Kind::Split) {
        return read_split(reader, alloc);
    }
    read_last_certs(reader, alloc)
}

#[cycle(cert)]
#[tactic(auto, unfolding(cov_grammar::specs::Grammar::last_certs))]
fn read_last_certs(reader: &mut TokenReader<'_>, alloc: Global) -> Result<PlacedCert, Stop>
    ensures reads { Gives views.cert reader.new result (reading grammar.last_certs reader.old) }
    ensures shorter { length reader.new ≤ length reader.old }
{
    if let Some(_) = reader.take(Kind::Have) {
        return read_have(reader, alloc);
    }
    if let Some(_) = reader.take(Kind::Not) {
        return Ok(PlacedCert::Not(read_one_part(reader, alloc)?));
    }
    if let Some(_) = reader.take(Kind::Contra) {
        return Ok(PlacedCert::Contra(read_one_part(reader, alloc)?));
    }
    if let Some(_) = reader.take(Kind::Fwd) {
        return read_fwd(reader, alloc);
    }
    if let Some(_) = reader.take(Kind::Rev) {
        return read_rev(reader, alloc);
    }
    if let Some(_) = reader.take(Kind::Axiom) {
        return read_axiom(reader, alloc);
    }
    read_part(reader, alloc)
}

// What stands behind the word of a certificate.

fn read_absurd(reader: &mut TokenReader<'_>) -> Result<PlacedCert, Stop>
    ensures reads { Gives views.cert reader.new result (reading behind.absurd reader.old) }
    ensures shorter { length reader.new ≤ length reader.old }
{
    let first = read_number(reader)?;
    let second = read_number(reader)?;
    Ok(PlacedCert::Absurd(first, second))
}

#[cycle(cert)]
fn read_and(reader: &mut TokenReader<'_>, alloc: Global) -> Result<PlacedCert, Stop>
    ensures reads { Gives views.cert reader.new result (reading behind.both reader.old) }
    ensures shorter { length reader.new ≤ length reader.old }
{
    let (first, second) = read_two_parts(reader, alloc)?;
    Ok(PlacedCert::And(first, second))
}

#[cycle(cert)]
fn read_use(reader: &mut TokenReader<'_>, alloc: Global) -> Result<PlacedCert, Stop>
    ensures reads { Gives views.cert reader.new result (reading behind.unpack reader.old) }
    ensures shorter { length reader.new ≤ length reader.old }
{
    let number = read_number(reader)?;
    Ok(PlacedCert::Unpack(number, read_one_part(reader, alloc)?))
}

#[cycle(cert)]
fn read_cases(reader: &mut TokenReader<'_>, alloc: Global) -> Result<PlacedCert, Stop>
    ensures reads { Gives views.cert reader.new result (reading behind.cases reader.old) }
    ensures shorter { length reader.new ≤ length reader.old }
{
    let number = read_number(reader)?;
    let (first, second) = read_two_parts(reader, alloc)?;
    Ok(PlacedCert::Cases(number, first, second))
}

#[cycle(cert)]
fn read_split(reader: &mut TokenReader<'_>, alloc: Global) -> Result<PlacedCert, Stop>
    ensures reads { Gives views.cert reader.new result (reading behind.split reader.old) }
    ensures shorter { length reader.new ≤ length reader.old }
{
    let whole = read_in_brackets(reader, alloc, false)?;
    let (first, second) = read_two_parts(reader, alloc)?;
    Ok(PlacedCert::Split(whole, first, second))
}

#[cycle(cert)]
fn read_have(reader: &mut TokenReader<'_>, alloc: Global) -> Result<PlacedCert, Stop>
    ensures reads { Gives views.cert reader.new result (reading behind.have reader.old) }
    ensures shorter { length reader.new ≤ length reader.old }
{
    let whole = read_in_brackets(reader, alloc, false)?;
    let (first, second) = read_two_parts(reader, alloc)?;
    Ok(PlacedCert::Have(whole, first, second))
}

#[cycle(cert)]
fn read_fwd(reader: &mut TokenReader<'_>, alloc: Global) -> Result<PlacedCert, Stop>
    ensures reads { Gives views.cert reader.new result (reading behind.fwd reader.old) }
    ensures shorter { length reader.new ≤ length reader.old }
{
    let number = read_number(reader)?;
    let template = read_in_brackets(reader, alloc, true)?;
    Ok(PlacedCert::Fwd(number, template, read_one_part(reader, alloc)?))
}

#[cycle(cert)]
fn read_rev(reader: &mut TokenReader<'_>, alloc: Global) -> Result<PlacedCert, Stop>
    ensures reads { Gives views.cert reader.new result (reading behind.rev reader.old) }
    ensures shorter { length reader.new ≤ length reader.old }
{
    let number = read_number(reader)?;
    let template = read_in_brackets(reader, alloc, true)?;
    Ok(PlacedCert::Rev(number, template, read_one_part(reader, alloc)?))
}

#[cycle(cert)]
fn read_axiom(reader: &mut TokenReader<'_>, alloc: Global) -> Result<PlacedCert, Stop>
    ensures reads { Gives views.cert reader.new result (reading behind.instance reader.old) }
    ensures shorter { length reader.new ≤ length reader.old }
{
    let number = read_number(reader)?;
    let arguments = read_arguments(reader, alloc)?;
    Ok(PlacedCert::Axiom(number, arguments, read_one_part(reader, alloc)?))
}

/// Expressions in round brackets.
#[tactic(auto, unfolding(cov_grammar::specs::Grammar::arguments))]
fn read_arguments(reader: &mut TokenReader<'_>, alloc: Global) -> Result<List<Whole>, Stop>
    ensures reads { Gives (map views.whole) reader.new result (reading grammar.arguments reader.old) }
    ensures shorter { length reader.new ≤ length reader.old }
{
    reader.expect(Kind::OpenParen)?;
    let list = read_wholes(reader, alloc)?;
    reader.expect(Kind::CloseParen)?;
    Ok(list)
}

/// One expression, or several with commas between them.
pub fn read_wholes(reader: &mut TokenReader<'_>, alloc: Global) -> Result<List<Whole>, Stop>
    ensures reads { Gives (map views.whole) reader.new result (reading (grammar.separated kinds.Comma grammar.whole) reader.old) }
    ensures shorter { length reader.new ≤ length reader.old }
{
    let mut list = List::new(alloc);
    let first = read_whole(reader, alloc, false)?;
    list.push(first)?;
    'items: while let Some(_) = reader.take(Kind::Comma) {
        let next = read_whole(reader, alloc, false)?;
        list.push(next)?;
    }
    Ok(list)
}
