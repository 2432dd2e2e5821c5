//! The sentences of tokens with which no program goes on.

ghost use Rattle.std.specs.Prelude.{◌≡◌, ◌++◌, OnOk};
ghost use Rattle.std.specs.List.{take_while};
ghost use Rattle.cov_expr.specs.Bytes as class;
ghost use Rattle.explain.specs.TokenSentences as spec;

use cov_expr::{Blob, NoMemory, is_keyword, is_lower, is_word};

/// Adds the sentence of a token with which no program goes on, by the text from the token on.
pub fn add_token_sentence(rest: &[u8], text: &mut Blob) -> Result<(), NoMemory>
    ensures { OnOk result (text.new ≡ text.old ++ spec.token_sentence rest.now) }
{
    match rest {
        [] => text.extend_from_slice(b"the text ends here, and no program is whole"),
        [first, ..] if is_lower(*first) => {
            let word = word_run(rest);
            let word_front = if is_keyword(word) {
                "`"
            } else {
                "no program goes on with the name `"
            };
            text.extend_from_slice(word_front.as_bytes())?;
            text.extend_from_slice(word)?;
            text.extend_from_slice(word_end(word).as_bytes())?;
            text.extend_from_slice(word_hint(word).as_bytes())
        }
        [first, others @ ..] => add_sign_sentence(*first, others, text),
    }
}

/// Adds the sentence of a sign, by its first byte and what stands behind that.
fn add_sign_sentence(first: u8, others: &[u8], text: &mut Blob) -> Result<(), NoMemory>
    ensures { OnOk result (text.new ≡ text.old ++ spec.sign_sentence first others.now) }
{
    text.extend_from_slice(b"no program goes on with this token")?;
    text.extend_from_slice(sign_hint(first, others).as_bytes())
}

/// What is mostly meant by a sign with which no program goes on; nothing where nothing is known of it.
fn sign_hint(first: u8, others: &[u8]) -> &'static str
    ensures { result.now ≡ spec.sign_hint first others.now }
{
    let is_assigned = match others {
        [first, ..] => *first == b'=',
        [] => false,
    };
    if first == b':' && !is_assigned {
        "; in a `join`, an `inv` and a `note` types stand behind `;`"
    } else if first == b'-' {
        "; no number is negative: `-1` is written `0 - 1`, which is 4294967295"
    } else {
        ""
    }
}

/// What stands behind a word in its sentence.
fn word_end(word: &[u8]) -> &'static str
    ensures { result.now ≡ spec.word_end word.now }
{
    if is_keyword(word) {
        "` is a reserved word, and no program goes on with it here"
    } else {
        "` here"
    }
}

/// What the grammar asks for where a word stands and is mostly overlooked; nothing where nothing is known of it.
fn word_hint(word: &[u8]) -> &'static str
    ensures { result.now ≡ spec.word_hint word.now }
{
    if word == b"output".as_slice() {
        "; a text with outputs begins with `version 2;`"
    } else if is_mode(word) {
        "; a lock has `nowrite`, then `hide`, then `inv`, and a thread `assume nowrite`, `assume hide`, `guarantee nowrite`, `guarantee hide`"
    } else if begins_declaration(word) {
        "; variables are declared first, then locks, then threads"
    } else if word == b"if".as_slice() {
        "; behind `else` stands a block: `else { if a { } else { } }`"
    } else {
        ""
    }
}

/// Whether a word is that of a list of variables that only some write or read.
fn is_mode(word: &[u8]) -> bool
    ensures { result ≡ spec.is_mode word.now }
{
    word == b"nowrite".as_slice() || word == b"hide".as_slice()
}

/// Whether a declaration begins with a word that stands in front of threads.
fn begins_declaration(word: &[u8]) -> bool
    ensures { result ≡ spec.begins_declaration word.now }
{
    word == b"lock".as_slice() || word == b"var".as_slice()
}

/// The longest run of letters, digits and underscores that a text begins with.
pub fn word_run(text: &[u8]) -> &[u8]
    ensures { result.now ≡ take_while class.is_word text.now }
{
    for (i, byte) in text.iter().enumerate() {
        if !is_word(*byte) {
            return &text[..i];
        }
    }
    text
}
