//! Tokens and lists of them.

ghost use Rattle.std.specs.Prelude.{◌≡◌};

use crate::word::Word;
use std::marker::Model;

/// What a token is.
#[derive(Clone, Copy, Debug, PartialEq, Eq)]
pub enum TokenKind {
    /// `!HPF$`, on the first line of a directive.
    Hpf,
    /// `!PIPE$`, on the first line of a pipeline statement.
    Pipe,
    /// A name or a reserved word.
    Word,
    /// Digits.
    Number,
    /// `(`
    LeftParen,
    /// `)`
    RightParen,
    /// `(/`
    LeftArray,
    /// `/)`
    RightArray,
    /// `,`
    Comma,
    /// `:`
    Colon,
    /// `::`
    DoubleColon,
    /// `*`
    Star,
    /// `+`
    Plus,
    /// `-`
    Minus,
    /// `=`
    Equals,
    /// The end of a statement, one column past its last token.
    End,
}

/// A token with the place of its first byte. `word` is empty and `number` is 0 for the kinds that don't use them.
#[derive(Clone, Copy)]
pub struct Token {
    pub kind: TokenKind,
    pub word: Word,
    pub number: u32,
    pub line: u32,
    pub column: u32,
}

impl Token {
    ghost use Rattle.hpf_lex.specs.Statement.{bare_token};

    /// A token that is no word and no number.
    pub(crate) fn bare(kind: TokenKind, line: u32, column: u32) -> Token
        ensures { result ≡ bare_token kind line column }
    {
        Token {
            kind,
            word: Word::empty(),
            number: 0,
            line,
            column,
        }
    }
}

/// The tokens of a text. It is seen as the list of them, which ends with the end of a statement.
#[derive(Drop)]
pub struct Tokens {
    items: Vec<Token>,
}

impl Model for Tokens {
    ghost use Rattle.std.specs.Prelude.{List};
    ghost use Rattle.hpf_lex.specs.declared.token.Token.{Token};

    ghost Value = { List Token };

    ghost use Rattle.hpf_lex.specs.Whole.{AreWhole};

    ghost view = { λ t. t.items.items };

    ghost invariant = { λ t. AreWhole t.items.items };
}

impl Tokens {
    ghost use Rattle.hpf_lex.specs.Whole.{AreWhole};

    /// The list of these tokens.
    pub(crate) fn new(items: Vec<Token>) -> Tokens
        requires { AreWhole items.items }
        ensures { result ≡ items.items }
    {
        Tokens { items }
    }

    /// The tokens, in order.
    pub fn as_slice(&self) -> &[Token]
        ensures items { result.now ≡ self.now }
        ensures whole { AreWhole self.now }
    {
        self.items.as_slice()
    }
}
