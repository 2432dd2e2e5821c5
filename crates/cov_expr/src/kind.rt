//! Kinds of tokens: a name, a number, each keyword and each sign.

/// What a token is: a name, a number, one of the 45 keywords, one of the 24 signs, or foreign to its text.
#[derive(Clone, Copy, PartialEq, Eq)]
pub enum Kind {
    /// A name of a variable, a lock or a thread.
    Name,
    /// A number.
    Number,
    /// `var`.
    Var,
    /// `low`.
    Low,
    /// `high`.
    High,
    /// `when`.
    When,
    /// `lock`.
    Lock,
    /// `nowrite`.
    Nowrite,
    /// `hide`.
    Hide,
    /// `inv`.
    Inv,
    /// `thread`.
    Thread,
    /// `assume`.
    Assume,
    /// `guarantee`.
    Guarantee,
    /// `skip`.
    Skip,
    /// `unlock`.
    Unlock,
    /// `if`.
    If,
    /// `else`.
    Else,
    /// `join`.
    Join,
    /// `while`.
    While,
    /// `note`.
    Note,
    /// `as`.
    As,
    /// `retype`.
    Retype,
    /// `by`.
    By,
    /// `auto`.
    Auto,
    /// `hyp`.
    Hyp,
    /// `calc`.
    Calc,
    /// `clash`.
    Clash,
    /// `and`.
    And,
    /// `left`.
    Left,
    /// `right`.
    Right,
    /// `use`.
    Use,
    /// `cases`.
    Cases,
    /// `split`.
    Split,
    /// `have`.
    Have,
    /// `absurd`.
    Absurd,
    /// `not`.
    Not,
    /// `contra`.
    Contra,
    /// `refl`.
    Refl,
    /// `fwd`.
    Fwd,
    /// `rev`.
    Rev,
    /// `axiom`.
    Axiom,
    /// `ring`.
    Ring,
    /// `range`.
    Range,
    /// `version`.
    Version,
    /// `output`.
    Output,
    /// `level`, which stands in no rule yet.
    Level,
    /// `seen`, which stands in no rule yet.
    Seen,
    /// `:`.
    Colon,
    /// `;`.
    Semicolon,
    /// `,`.
    Comma,
    /// `{`.
    OpenBrace,
    /// `}`.
    CloseBrace,
    /// `(`.
    OpenParen,
    /// `)`.
    CloseParen,
    /// `[`.
    OpenBracket,
    /// `]`.
    CloseBracket,
    /// `_`, the hole of a template.
    Hole,
    /// `:=`.
    Assign,
    /// `+`.
    Plus,
    /// `-`.
    Minus,
    /// `*`.
    Star,
    /// `&`.
    Ampersand,
    /// `|`.
    Bar,
    /// `^`.
    Caret,
    /// `==`.
    Equal,
    /// `!=`.
    Differs,
    /// `<`.
    Less,
    /// `<=`.
    AtMost,
    /// `&&`.
    Both,
    /// `||`.
    Either,
    /// `!`.
    Bang,
    /// A word or a number that the version of its text doesn't have. It stands in no rule.
    Foreign,
}
