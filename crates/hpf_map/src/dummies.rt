//! The dummies of an ALIGN.

ghost use Rattle.std.specs.Prelude.{◌≡◌, ℕ, List, ◌||◌, IfOk, OnOk, option_copied};
ghost use Rattle.hpf_map.specs.Uses.{is_dummy, dummies};
ghost use Rattle.hpf_map.specs.Hidden.{hides};

use hpf_lex::Word;
use hpf_syntax::{List, SourceItem};
use std::alloc::{AllocError, Global};
use std::collections::BTreeSet;

/// Adds the word of a source, where it is a dummy.
fn add_dummy(words: &mut BTreeSet<Word>, source: &SourceItem) -> Result<(), AllocError>
    ensures { OnOk result ((word : List ℕ)
        → hides (Some words.new) word ≡ (hides (Some words.old) word || is_dummy word source.now)) }
{
    if let SourceItem::Dummy(dummy) = source {
        words.insert(dummy.word)?;
    }
    Ok(())
}

/// The words that stand as dummies among these sources.
fn dummies_among(alloc: Global, sources: &[SourceItem]) -> Result<BTreeSet<Word>, AllocError>
    ensures { IfOk result (λ set. (word : List ℕ) → hides (Some set) word ≡ dummies (Some sources.now) word) }
{
    let mut words = BTreeSet::new(alloc);
    for source in sources {
        add_dummy(&mut words, source)?;
    }
    Ok(words)
}

/// The words that stand as dummies in an ALIGN.
pub(crate) fn dummies_of(
    alloc: Global,
    sources: &Option<List<SourceItem>>,
) -> Result<BTreeSet<Word>, AllocError>
    ensures { IfOk result (λ set. (word : List ℕ) → hides (Some set) word ≡ dummies sources.now word) }
{
    match sources {
        Some(sources) => dummies_among(alloc, sources.as_slice()),
        None => Ok(BTreeSet::new(alloc)),
    }
}

/// Whether a dummy hides this word. Where there are no dummies none is hidden.
pub(crate) fn hides(dummies: Option<&BTreeSet<Word>>, word: &Word) -> bool
    ensures { result ≡ hides (option_copied dummies.entry) word.now }
{
    match dummies {
        Some(dummies) => dummies.contains(word),
        None => false,
    }
}
