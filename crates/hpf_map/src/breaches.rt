//! The breach that comes first.

ghost use Rattle.std.specs.Prelude.{◌≡◌, [], ◌∷◌, Some, None, option_to_list, is_none};
ghost use Rattle.hpf_map.specs.Constraint.{breach, breach_if};
ghost use Rattle.hpf_map.specs.Found.{least_with};

use crate::constraint::Constraint;
use hpf_lex::MapRefusal;
use hpf_syntax::At;
use std::marker::Model;

/// The breaches that were found so far. Only the one that comes first by line, column and code is kept, and that is what
/// they are seen as.
#[derive(Drop)]
pub(crate) struct Breaches {
    least: Option<MapRefusal>,
}

impl Model for Breaches {
    ghost use Rattle.std.specs.Prelude.{Option};
    ghost use Rattle.hpf_lex.specs.declared.refusal.MapRefusal.{MapRefusal};

    ghost Value = { Option MapRefusal };

    ghost view = { λ b. b.least };
}

impl Breaches {
    /// No breach.
    pub(crate) fn new() -> Breaches
        ensures { result ≡ None }
    {
        Breaches { least: None }
    }

    /// Whether there is none.
    pub(crate) fn is_empty(&self) -> bool
        ensures { result ≡ is_none self.now }
    {
        self.least.is_none()
    }

    /// The breach that comes first.
    pub(crate) fn least(&self) -> Option<MapRefusal>
        ensures { result ≡ self.now }
    {
        self.least
    }

    /// Takes a breach at this place in.
    pub(crate) fn note(&mut self, constraint: Constraint, at: At)
        ensures { self.new ≡ least_with self.old (breach constraint at ∷ []) }
    {
        self.take(constraint.at(at));
    }

    /// Takes a breach in.
    #[tactic(auto, unfolding(crate::specs::Found::least_with))]
    fn take(&mut self, found: MapRefusal)
        ensures { self.new ≡ least_with self.old (found ∷ []) }
    {
        let least = self.least;
        self.least = match least {
            Some(least) if !found.comes_before(&least) => Some(least),
            _ => Some(found),
        };
    }

    /// Takes a breach at this place in, where the constraint is broken.
    #[tactic(auto, using(crate::proofs::FoundLemmas::least_with_laws))]
    pub(crate) fn note_if(&mut self, broken: bool, constraint: Constraint, at: At)
        ensures { self.new ≡ least_with self.old (breach_if broken constraint at) }
    {
        if broken {
            self.note(constraint, at);
        }
    }

    /// Takes the first breach of others in.
    #[tactic(auto, using(crate::proofs::FoundLemmas::least_with_laws))]
    pub(crate) fn take_in(&mut self, others: &Breaches)
        ensures { self.new ≡ least_with self.old (option_to_list others.now) }
    {
        if let Some(found) = others.least {
            self.take(found);
        }
    }
}
