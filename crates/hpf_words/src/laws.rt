//! What holds of all words.

ghost use Rattle.std.specs.Prelude.{◌≡◌, List, ℕ};
ghost use Rattle.hpf_words.specs.declared.asked.Asked.{Asked};
ghost use Rattle.hpf_words.specs.Words.{AsksFor};

/// Words ask for one thing.
pub fn one_line()
    ensures { (words : List (List ℕ)) (a b : Asked) (m n : List ℕ) → AsksFor words a m → AsksFor words b n → (a ≡ b) × (m ≡ n) }
{}
