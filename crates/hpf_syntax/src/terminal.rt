//! What a token is to the grammar.

ghost use Rattle.std.specs.Prelude.{◌≡◌};
ghost use Rattle.hpf_syntax.specs.Terminal.{word_among, word_terminal, token_terminal, first_terminal, begins, spelling, same};

use hpf_lex::{Token, TokenKind};

/// What a token is to the grammar: a sign, a number, a name, or one of the reserved words.
#[derive(Clone, Copy, Debug, PartialEq, Eq)]
pub(crate) enum Terminal {
    /// There is no token.
    Missing,
    /// A word that is not reserved.
    Name,
    Hpf,
    Pipe,
    Number,
    LeftParen,
    RightParen,
    LeftArray,
    RightArray,
    Comma,
    Colon,
    DoubleColon,
    Star,
    Plus,
    Minus,
    Equals,
    End,
    Add,
    Align,
    Block,
    Buffers,
    Cyclic,
    Dimension,
    Distribute,
    Dynamic,
    GenBlock,
    Implicit,
    Indirect,
    Inherit,
    Input,
    Integer,
    Mul,
    NoneWord,
    Onto,
    Parameter,
    Permute,
    Prefix,
    Processors,
    Realign,
    Redistribute,
    Reduce,
    Shadow,
    Stage,
    Stencil,
    Template,
    With,
}

/// The reserved words.
const RESERVED: [Terminal; 29] = [
    Terminal::Add,
    Terminal::Align,
    Terminal::Block,
    Terminal::Buffers,
    Terminal::Cyclic,
    Terminal::Dimension,
    Terminal::Distribute,
    Terminal::Dynamic,
    Terminal::GenBlock,
    Terminal::Implicit,
    Terminal::Indirect,
    Terminal::Inherit,
    Terminal::Input,
    Terminal::Integer,
    Terminal::Mul,
    Terminal::NoneWord,
    Terminal::Onto,
    Terminal::Parameter,
    Terminal::Permute,
    Terminal::Prefix,
    Terminal::Processors,
    Terminal::Realign,
    Terminal::Redistribute,
    Terminal::Reduce,
    Terminal::Shadow,
    Terminal::Stage,
    Terminal::Stencil,
    Terminal::Template,
    Terminal::With,
];

impl Terminal {
    /// How a reserved word is spelled.
    #[tactic(auto, unfolding(crate::specs::Terminal::spelling))]
    fn spelling(self) -> &'static [u8]
        ensures { result.now ≡ spelling self }
    {
        match self {
            Terminal::Add => b"ADD",
            Terminal::Align => b"ALIGN",
            Terminal::Block => b"BLOCK",
            Terminal::Buffers => b"BUFFERS",
            Terminal::Cyclic => b"CYCLIC",
            Terminal::Dimension => b"DIMENSION",
            Terminal::Distribute => b"DISTRIBUTE",
            Terminal::Dynamic => b"DYNAMIC",
            Terminal::GenBlock => b"GEN_BLOCK",
            Terminal::Implicit => b"IMPLICIT",
            Terminal::Indirect => b"INDIRECT",
            Terminal::Inherit => b"INHERIT",
            Terminal::Input => b"INPUT",
            Terminal::Integer => b"INTEGER",
            Terminal::Mul => b"MUL",
            Terminal::NoneWord => b"NONE",
            Terminal::Onto => b"ONTO",
            Terminal::Parameter => b"PARAMETER",
            Terminal::Permute => b"PERMUTE",
            Terminal::Prefix => b"PREFIX",
            Terminal::Processors => b"PROCESSORS",
            Terminal::Realign => b"REALIGN",
            Terminal::Redistribute => b"REDISTRIBUTE",
            Terminal::Reduce => b"REDUCE",
            Terminal::Shadow => b"SHADOW",
            Terminal::Stage => b"STAGE",
            Terminal::Stencil => b"STENCIL",
            Terminal::Template => b"TEMPLATE",
            Terminal::With => b"WITH",
            _ => b"",
        }
    }
}

/// The first of these words that is spelled so, or a name.
#[tactic(auto, unfolding(crate::specs::Terminal::word_among))]
fn word_among(words: &[Terminal], bytes: &[u8]) -> Terminal
    ensures { result ≡ word_among words.now bytes.now }
{
    for word in words {
        if bytes == word.spelling() {
            return *word;
        }
    }
    Terminal::Name
}

/// What a word is: one of the reserved words, or a name.
#[tactic(auto, unfolding(crate::specs::Terminal::word_terminal))]
fn word_terminal(bytes: &[u8]) -> Terminal
    ensures { result ≡ word_terminal bytes.now }
{
    word_among(&RESERVED, bytes)
}

/// What a token is.
#[tactic(auto, unfolding(crate::specs::Terminal::token_terminal, crate::specs::Terminal::kind_terminal))]
pub(crate) fn token_terminal(token: &Token) -> Terminal
    ensures { result ≡ token_terminal token.now }
{
    match token.kind {
        TokenKind::Word => word_terminal(token.word.as_slice()),
        TokenKind::Hpf => Terminal::Hpf,
        TokenKind::Pipe => Terminal::Pipe,
        TokenKind::Number => Terminal::Number,
        TokenKind::LeftParen => Terminal::LeftParen,
        TokenKind::RightParen => Terminal::RightParen,
        TokenKind::LeftArray => Terminal::LeftArray,
        TokenKind::RightArray => Terminal::RightArray,
        TokenKind::Comma => Terminal::Comma,
        TokenKind::Colon => Terminal::Colon,
        TokenKind::DoubleColon => Terminal::DoubleColon,
        TokenKind::Star => Terminal::Star,
        TokenKind::Plus => Terminal::Plus,
        TokenKind::Minus => Terminal::Minus,
        TokenKind::Equals => Terminal::Equals,
        TokenKind::End => Terminal::End,
    }
}

/// What the first token is.
#[tactic(auto, unfolding(crate::specs::Terminal::first_terminal))]
pub(crate) fn first_terminal(tokens: &[Token]) -> Terminal
    ensures { result ≡ first_terminal tokens.now }
{
    match tokens.first() {
        Some(token) => token_terminal(token),
        None => Terminal::Missing,
    }
}

/// Whether the first token is this one.
#[tactic(auto, unfolding(crate::specs::Terminal::begins, crate::specs::Terminal::same, crate::specs::Terminal::number_of))]
pub(crate) fn begins(terminal: Terminal, tokens: &[Token]) -> bool
    ensures { result ≡ begins terminal tokens.now }
{
    first_terminal(tokens) == terminal
}
