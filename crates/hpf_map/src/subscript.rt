//! What a subscript of ALIGN says.

use hpf_lex::Word;

/// A subscript as `coefficient` times a dummy plus `constant`. Where there is no dummy the coefficient is 0.
#[derive(Clone, Copy)]
pub(crate) struct Linear {
    pub dummy: Option<Word>,
    pub coefficient: i32,
    pub constant: i32,
}

/// What a subscript says.
#[derive(Clone, Copy)]
pub(crate) enum Subscript {
    /// Every position of the dimension.
    Any,
    /// One position for each value of a dummy, or for all elements, as of a linear form.
    Linear {
        dummy: Option<Word>,
        coefficient: i32,
        constant: i32,
    },
    /// Evenly spaced positions, one for each place of a `:` among the sources. What isn't written is none.
    Triplet {
        low: Option<i32>,
        high: Option<i32>,
        step: Option<i32>,
    },
}
