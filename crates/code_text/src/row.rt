//! What a row of a listing is, by its fields and by what was read before it.

ghost use Rattle.std.specs.Prelude.{◌≡◌, ◌∷◌, map};
ghost use Rattle.code_text.specs.Inside.ListingReading as spec;
ghost use Rattle.risc_machine.specs.declared.parts.Instr.TheVariants as instr;

use crate::draft::Draft;
use crate::field::{is, name_of, number_of, op_of, register_of, weight_of};
use crate::names::Names;
use cov_expr::Name;
use risc_machine::{Instr, Line};

/// A row of a listing behind the first.
#[derive(Clone, Copy)]
pub enum Row {
    /// A variable.
    Var(Name),
    /// A lock.
    Lock(Name),
    /// A thread, and how many lines it has.
    Thread(Name, u32),
    /// A line of the last thread.
    Line(Line),
}

/// The row that these fields are, behind what was read.
pub fn row_of(draft: &Draft, fields: &[&[u8]]) -> Option<Row>
    ensures { result ≡ spec.row_of draft.now (map (λ f. f.now) fields.now) }
{
    if draft.left() > 0 {
        line_of(draft, fields)
    } else {
        head_of(draft, fields)
    }
}

fn head_of(draft: &Draft, fields: &[&[u8]]) -> Option<Row>
    ensures { result ≡ spec.head_of (draft.now).parts (map (λ f. f.now) fields.now) }
{
    match fields {
        [] => None,
        [_] => None,
        [word, name] => name_row(draft, word, name),
        [word, name, count] => thread_row(word, name, count),
        _ => None,
    }
}

fn name_row(draft: &Draft, word: &[u8], name: &[u8]) -> Option<Row>
    ensures { result ≡ spec.name_row (draft.now).parts word.now name.now }
{
    if is(word, b"var") && draft.locks().is_empty() && draft.is_before_threads() {
        name_of(name).map(Row::Var)
    } else if is(word, b"lock") && draft.is_before_threads() {
        name_of(name).map(Row::Lock)
    } else {
        None
    }
}

fn thread_row(word: &[u8], name: &[u8], count: &[u8]) -> Option<Row>
    ensures { result ≡ spec.thread_row word.now name.now count.now }
{
    if is(word, b"thread") {
        Some(Row::Thread(name_of(name)?, number_of(count)?))
    } else {
        None
    }
}

fn line_of(draft: &Draft, fields: &[&[u8]]) -> Option<Row>
    ensures { result ≡ spec.line_of (draft.now).parts (map (λ f. f.now) fields.now) }
{
    match fields {
        [] => None,
        [weight, rest @ ..] => {
            let weight = weight_of(weight)?;
            let instr = instr_of(draft, rest)?;
            Some(Row::Line(Line { weight, instr }))
        }
    }
}

fn instr_of(draft: &Draft, fields: &[&[u8]]) -> Option<Instr>
    ensures { result ≡ spec.instr_of (draft.now).parts (map (λ f. f.now) fields.now) }
{
    match fields {
        [] => None,
        [word, operands @ ..] => instr_with(draft, word, operands),
    }
}

/// The instruction of a word and of the fields behind it.
fn instr_with(draft: &Draft, word: &[u8], operands: &[&[u8]]) -> Option<Instr>
    ensures { result ≡ spec.instr_of (draft.now).parts (word.now ∷ map (λ f. f.now) operands.now) }
{
    match operands {
        [] => no_fields(word),
        [a] => one_field(draft, word, a),
        [a, b] => two_fields(draft, word, a, b),
        [a, b, c] => three_fields(word, a, b, c),
        _ => None,
    }
}

fn no_fields(word: &[u8]) -> Option<Instr>
    ensures { result ≡ spec.no_fields word.now }
{
    if is(word, b"nop") {
        Some(Instr::Nop)
    } else {
        None
    }
}

fn one_field(draft: &Draft, word: &[u8], a: &[u8]) -> Option<Instr>
    ensures { result ≡ spec.one_field (draft.now).parts.version (draft.now).parts.vars (draft.now).parts.locks word.now a.now }
{
    if is(word, b"jump") {
        number_of(a).map(Instr::Jump)
    } else if is(word, b"acquire") {
        draft.locks().find(a).map(Instr::Acquire)
    } else if is(word, b"release") {
        draft.locks().find(a).map(Instr::Release)
    } else if is(word, b"out") && 2 <= draft.version() {
        register_of(a).map(Instr::Out)
    } else {
        None
    }
}

fn two_fields(draft: &Draft, word: &[u8], a: &[u8], b: &[u8]) -> Option<Instr>
    ensures { result ≡ spec.two_fields (draft.now).parts.vars word.now a.now b.now }
{
    if is(word, b"load") {
        load_of(draft.vars(), a, b)
    } else if is(word, b"store") {
        store_of(draft.vars(), a, b)
    } else if is(word, b"jz") {
        jz_of(a, b)
    } else if is(word, b"movc") {
        movc_of(a, b)
    } else if is(word, b"movr") {
        movr_of(a, b)
    } else {
        None
    }
}

fn load_of(vars: &Names, a: &[u8], b: &[u8]) -> Option<Instr>
    ensures { result ≡ spec.both instr.Load (spec.register_of a.now) (spec.id_of vars.now b.now) }
{
    Some(Instr::Load(register_of(a)?, vars.find(b)?))
}

fn store_of(vars: &Names, a: &[u8], b: &[u8]) -> Option<Instr>
    ensures { result ≡ spec.both instr.Store (spec.id_of vars.now a.now) (spec.register_of b.now) }
{
    Some(Instr::Store(vars.find(a)?, register_of(b)?))
}

fn jz_of(a: &[u8], b: &[u8]) -> Option<Instr>
    ensures { result ≡ spec.both instr.Jz (spec.register_of a.now) (spec.number_of b.now) }
{
    Some(Instr::Jz(register_of(a)?, number_of(b)?))
}

fn movc_of(a: &[u8], b: &[u8]) -> Option<Instr>
    ensures { result ≡ spec.both instr.MovC (spec.register_of a.now) (spec.number_of b.now) }
{
    Some(Instr::MovC(register_of(a)?, number_of(b)?))
}

fn movr_of(a: &[u8], b: &[u8]) -> Option<Instr>
    ensures { result ≡ spec.both instr.MovR (spec.register_of a.now) (spec.register_of b.now) }
{
    Some(Instr::MovR(register_of(a)?, register_of(b)?))
}

fn three_fields(word: &[u8], a: &[u8], b: &[u8], c: &[u8]) -> Option<Instr>
    ensures { result ≡ spec.three_fields word.now a.now b.now c.now }
{
    if is(word, b"op") {
        Some(Instr::Bin(op_of(a)?, register_of(b)?, register_of(c)?))
    } else {
        None
    }
}
