//! What holds of the grammar itself, and of canonical text.

ghost use Rattle.std.specs.Prelude.{◌≡◌, ◌⊎◌, List};
ghost use Rattle.hpf_lex.specs.declared.refusal.MapRefusal.{MapRefusal};
ghost use Rattle.hpf_lex.specs.declared.token.Token.{Token};
ghost use Rattle.hpf_lex.specs.Whole.{AreWhole};
ghost use Rattle.hpf_syntax.specs.Canonical.{canonical};
ghost use Rattle.hpf_syntax.specs.FirstFault.{Spells, SpellsShortly, IsRefusalOf};
ghost use Rattle.hpf_syntax.specs.Parsed.{IsParsed};
ghost use Rattle.hpf_syntax.specs.Placeless.{AreAlike};
ghost use Rattle.hpf_syntax.specs.Plain.{ItemTree};

use hpf_lex::{numeral, one_line_each, proper_tokens, spelled_token};

/// The tokens of a text are those of one list of statements, however long its expressions are.
pub fn one_text()
    ensures { (tokens : List Token) (a b : List ItemTree) → Spells tokens a → Spells tokens b → a ≡ b }
{}

/// A list of tokens has one first fault at most.
pub fn one_fault()
    ensures { (tokens : List Token) (r s : MapRefusal)
        → IsRefusalOf tokens r → IsRefusalOf tokens s → r ≡ s }
{}

/// The tokens of a text have no first fault.
pub fn never_both()
    ensures { (tokens : List Token) (items : List ItemTree) (r : MapRefusal)
        → SpellsShortly tokens items → IsRefusalOf tokens r → ⊥ }
{}

/// Tokens of whole statements are those of a text, or they have a first fault.
pub fn text_or_fault()
    ensures { (tokens : List Token) → AreWhole tokens
        → ((items : List ItemTree) × SpellsShortly tokens items) ⊎ ((r : MapRefusal) × IsRefusalOf tokens r) }
{}

/// Statements of texts have one canonical text exactly where they differ in their places alone, however long that text is.
pub fn one_canonical_text()
    ensures alike { (a b : List ItemTree) → AreAlike a b → canonical a ≡ canonical b }
    ensures only { (a b : List ItemTree) → IsParsed a → IsParsed b → canonical a ≡ canonical b → AreAlike a b }
{
    // What is known of texts that are written token by token.
    spelled_token();
    numeral();
    proper_tokens();
    one_line_each();
}
