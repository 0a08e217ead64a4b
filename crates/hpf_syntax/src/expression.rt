//! Expressions.
//!
//! An expression is read by one loop over its tokens. What is open is kept on a stack, so that parentheses take no
//! stack of calls, however deep they are.

ghost use Rattle.std.specs.Prelude.{◌≡◌, ◌-◌, ◌≤◌, true, false, not, IfOk, map, option_map, ◌∷◌};
ghost use Rattle.hpf_syntax.specs.Plain.{tree, place};
ghost use Rattle.hpf_syntax.specs.Reading.{Gives};
ghost use Rattle.hpf_syntax.specs.Partial.{expression_at, Operator, max_expression};

use crate::rule::behind;
use crate::stack::Stack;
use crate::stop::{Fault, Stop, bad};
use crate::terminal::{Terminal, first_terminal};
use crate::tree::{At, Expr};
use hpf_lex::Token;
use std::alloc::{AllocError, Global};

/// The greatest number of tokens of an expression.
const MAX_EXPRESSION: usize = 64;

/// What the next term is joined to.
#[derive(Drop)]
enum Sum {
    Nothing,
    Negative(At),
    Plus(At, Expr),
    Minus(At, Expr),
}

/// What stands last.
#[derive(Drop)]
enum Last {
    /// Nothing stands in these parentheses yet.
    Nothing,
    /// A sign, or the operator of a sum.
    Operator,
    /// A product and a `*` behind it.
    Times(At, Expr),
    /// A product, which may go on.
    Product(Expr),
}

/// What has been read inside one pair of parentheses.
#[derive(Drop)]
struct Level {
    sum: Sum,
    last: Last,
}

/// An expression as far as it has been read: its innermost open parentheses, and those around them.
#[derive(Drop)]
struct Partial {
    outer: Stack<Level>,
    level: Level,
}

/// The place of a token.
pub(crate) fn place(token: &Token) -> At
    ensures { result ≡ place token.now }
{
    At {
        line: token.line,
        column: token.column,
    }
}

impl Level {
    ghost use Rattle.hpf_syntax.specs.Partial.{inner_of, fresh_inner};

    /// Nothing stands inside the parentheses.
    fn new() -> Level
        ensures { inner_of result ≡ fresh_inner }
    {
        Level {
            sum: Sum::Nothing,
            last: Last::Nothing,
        }
    }
}

impl Sum {
    ghost use Rattle.hpf_syntax.specs.Partial.{before_of, joined};

    /// A term, joined to what stands before it.
    fn join(self, alloc: Global, term: Expr) -> Result<Expr, AllocError>
        ensures { IfOk result (λ e. tree e ≡ joined (before_of self) (tree term)) }
    {
        match self {
            Sum::Nothing => Ok(term),
            Sum::Negative(at) => Ok(Expr::Neg(at, Box::new(alloc, term)?)),
            Sum::Plus(at, left) => {
                let left = Box::new(alloc, left)?;
                Ok(Expr::Plus(at, left, Box::new(alloc, term)?))
            }
            Sum::Minus(at, left) => {
                let left = Box::new(alloc, left)?;
                Ok(Expr::Minus(at, left, Box::new(alloc, term)?))
            }
        }
    }
}

impl Last {
    ghost use Rattle.hpf_syntax.specs.Partial.{standing_of, multiplied, is_due, takes_sign};

    /// A factor, joined to what stands before it.
    fn multiply(self, alloc: Global, factor: Expr) -> Result<Expr, AllocError>
        ensures { IfOk result (λ e. tree e ≡ multiplied (standing_of self) (tree factor)) }
    {
        match self {
            Last::Times(at, left) => {
                let left = Box::new(alloc, left)?;
                Ok(Expr::Times(at, left, Box::new(alloc, factor)?))
            }
            _ => Ok(factor),
        }
    }

    /// Whether a factor is due.
    fn is_due(&self) -> bool
        ensures { result ≡ is_due (standing_of self.now) }
    {
        !matches!(self, Last::Product(_))
    }

    /// Whether a sign or the operator of a sum may stand here.
    fn takes_sign(&self) -> bool
        ensures { result ≡ takes_sign (standing_of self.now) }
    {
        matches!(self, Last::Nothing | Last::Product(_))
    }
}

impl Partial {
    ghost use Rattle.std.specs.Prelude.{[]};
    ghost use Rattle.hpf_syntax.specs.Terminal.{token_terminal};
    ghost use Rattle.hpf_syntax.specs.Partial.{progress_of, fresh, takes, step, step_over, value_of, closed, with_factor, inner_of, is_open, plus_before, minus_before, star_after, progress, before_of, standing_of};

    /// Nothing has been read.
    fn new(alloc: Global) -> Partial
        ensures { progress_of result ≡ fresh [] }
    {
        Partial {
            outer: Stack::new(alloc),
            level: Level::new(),
        }
    }

    /// Whether parentheses are open.
    fn is_open(&self) -> bool
        ensures { result ≡ is_open (progress_of self.now).outer }
    {
        !self.outer.is_empty()
    }

    /// Whether this token may stand next.
    #[tactic(auto, unfolding(crate::specs::Partial::takes))]
    fn takes(&self, terminal: Terminal) -> bool
        ensures { result ≡ takes (progress_of self.now) terminal }
    {
        match terminal {
            Terminal::Number | Terminal::Name | Terminal::LeftParen => self.level.last.is_due(),
            Terminal::RightParen => self.is_open() && !self.level.last.is_due(),
            Terminal::Star => !self.level.last.is_due(),
            Terminal::Plus | Terminal::Minus => self.level.last.takes_sign(),
            _ => false,
        }
    }

    /// With the first of these tokens, which it takes.
    #[tactic(auto, unfolding(crate::specs::Partial::step))]
    fn step(
        self,
        alloc: Global,
        terminal: Terminal,
        tokens: &[Token],
    ) -> Result<Partial, AllocError>
        ensures { IfOk result (λ p. progress_of p ≡ step terminal tokens.now (progress_of self)) }
    {
        match tokens.first() {
            Some(token) => self.step_over(alloc, terminal, token),
            None => Ok(self),
        }
    }

    #[tactic(auto, unfolding(crate::specs::Partial::step_over))]
    fn step_over(
        self,
        alloc: Global,
        terminal: Terminal,
        token: &Token,
    ) -> Result<Partial, AllocError>
        ensures { IfOk result (λ p. progress_of p ≡ step_over terminal token.now (progress_of self)) }
    {
        let at = place(token);
        match terminal {
            Terminal::Number => self.with_factor(alloc, Expr::Number(at, token.number)),
            Terminal::Name => self.with_factor(alloc, Expr::Name(at, token.word)),
            Terminal::LeftParen => self.opened(),
            Terminal::RightParen => self.closed(alloc),
            Terminal::Star => Ok(self.with_star(at)),
            Terminal::Plus => self.with_plus(alloc, at),
            Terminal::Minus => self.with_minus(alloc, at),
            _ => Ok(self),
        }
    }

    fn with_factor(self, alloc: Global, factor: Expr) -> Result<Partial, AllocError>
        ensures { IfOk result (λ p. progress_of p
            ≡ with_factor (progress_of self).outer (progress_of self).inner (tree factor)) }
    {
        let Partial { outer, level } = self;
        let product = level.last.multiply(alloc, factor)?;
        Ok(Partial {
            outer,
            level: Level {
                sum: level.sum,
                last: Last::Product(product),
            },
        })
    }

    fn opened(self) -> Result<Partial, AllocError>
        ensures { IfOk result (λ p. progress_of p ≡ fresh ((progress_of self).inner ∷ (progress_of self).outer)) }
    {
        let Partial { mut outer, level } = self;
        outer.push(level)?;
        Ok(Partial {
            outer,
            level: Level::new(),
        })
    }

    fn closed(self, alloc: Global) -> Result<Partial, AllocError>
        ensures { IfOk result (λ p. progress_of p
            ≡ closed (progress_of self).outer (progress_of self).inner.before (progress_of self).inner.standing) }
    {
        let Partial { mut outer, level } = self;
        let Level { sum, last } = level;
        match last {
            Last::Product(term) => match outer.pop() {
                Some(around) => {
                    let inside = sum.join(alloc, term)?;
                    Partial {
                        outer,
                        level: around,
                    }
                    .with_factor(alloc, inside)
                }
                None => Ok(Partial {
                    outer,
                    level: Level {
                        sum,
                        last: Last::Product(term),
                    },
                }),
            },
            last => Ok(Partial {
                outer,
                level: Level { sum, last },
            }),
        }
    }

    fn with_star(self, at: At) -> Partial
        ensures { progress_of result ≡ progress (progress_of self).outer (progress_of self).inner.before
            (star_after at (progress_of self).inner.standing) }
    {
        let Partial { outer, level } = self;
        let Level { sum, last } = level;
        let last = match last {
            Last::Product(product) => Last::Times(at, product),
            last => last,
        };
        Partial {
            outer,
            level: Level { sum, last },
        }
    }

    fn with_plus(self, alloc: Global, at: At) -> Result<Partial, AllocError>
        ensures { IfOk result (λ p. progress_of p ≡ progress (progress_of self).outer
            (plus_before at (progress_of self).inner.before (progress_of self).inner.standing) Operator) }
    {
        let Partial { outer, level } = self;
        let Level { sum, last } = level;
        let sum = match last {
            Last::Product(term) => Sum::Plus(at, sum.join(alloc, term)?),
            _ => Sum::Nothing,
        };
        Ok(Partial {
            outer,
            level: Level {
                sum,
                last: Last::Operator,
            },
        })
    }

    fn with_minus(self, alloc: Global, at: At) -> Result<Partial, AllocError>
        ensures { IfOk result (λ p. progress_of p ≡ progress (progress_of self).outer
            (minus_before at (progress_of self).inner.before (progress_of self).inner.standing) Operator) }
    {
        let Partial { outer, level } = self;
        let Level { sum, last } = level;
        let sum = match last {
            Last::Product(term) => Sum::Minus(at, sum.join(alloc, term)?),
            _ => Sum::Negative(at),
        };
        Ok(Partial {
            outer,
            level: Level {
                sum,
                last: Last::Operator,
            },
        })
    }

    /// The expression, where it may end here.
    #[tactic(auto, unfolding(crate::specs::Partial::value_of))]
    fn value(self, alloc: Global) -> Result<Option<Expr>, AllocError>
        ensures { IfOk result (λ e. option_map tree e ≡ value_of (progress_of self)) }
    {
        let is_open = self.is_open();
        let Partial { outer, level } = self;
        drop(outer);
        let Level { sum, last } = level;
        match last {
            Last::Product(term) if !is_open => Ok(Some(sum.join(alloc, term)?)),
            _ => Ok(None),
        }
    }
}

/// The expression that the tokens begin with.
#[tactic(auto, using(crate::proofs::Runs::run_starts, crate::proofs::Runs::run_goes_on, crate::proofs::Runs::run_is_full, crate::proofs::Runs::run_stops))]
pub(crate) fn expression(alloc: Global, tokens: &[Token]) -> Result<(Expr, &[Token]), Stop>
    ensures { Gives (λ x. (tree x.0, x.1.now)) result (expression_at max_expression tokens.now) }
{
    let mut partial = Partial::new(alloc);
    let mut rest = tokens;
    let mut room = MAX_EXPRESSION;
    loop {
        let terminal = first_terminal(rest);
        if !partial.takes(terminal) {
            break;
        }
        if room == 0 {
            return Err(bad(Fault::LongExpression, rest));
        }
        partial = partial.step(alloc, terminal, rest)?;
        rest = behind(rest);
        room -= 1;
    }
    match partial.value(alloc)? {
        Some(value) => Ok((value, rest)),
        None => Err(bad(Fault::Syntax, rest)),
    }
}
