//! The names that an expression may use.

ghost use Rattle.std.specs.Prelude.{◌≡◌, ◌++◌, ◌∷◌, [], option_copied, option_to_list};
ghost use Rattle.hpf_map.specs.Known.{known};

use crate::name::Name;
use crate::names::Names;
use hpf_lex::Word;
use std::marker::Model;

/// The names that are declared before an expression, and the one whose own bounds it stands in. It is seen as the list of
/// them.
#[derive(Drop)]
pub(crate) struct Scope<'a> {
    names: &'a Names,
    inside: Option<&'a Name>,
}

impl<'a> Model for Scope<'a> {
    ghost use Rattle.std.specs.Prelude.{List, ◌++◌, option_to_list, option_copied};
    ghost use Rattle.hpf_map.specs.declared.name.Name.{Name};

    ghost Value = { List Name };

    ghost view = { λ s. s.names.now ++ option_to_list (option_copied s.inside) };
}

impl<'a> Scope<'a> {
    /// Behind these names.
    pub(crate) fn behind(names: &'a Names) -> Scope<'a>
        ensures { result ≡ names.now }
    {
        Scope {
            names,
            inside: None,
        }
    }

    /// Behind these names, in the bounds of another.
    pub(crate) fn inside(names: &'a Names, name: &'a Name) -> Scope<'a>
        ensures { result ≡ names.now ++ name.now ∷ [] }
    {
        Scope {
            names,
            inside: Some(name),
        }
    }

    /// What is known of a word. None where nothing declares it before.
    pub(crate) fn find(&self, word: &Word) -> Option<&Name>
        ensures { option_copied result ≡ known self.now word.now }
    {
        match self.names.find(word) {
            Some(name) => Some(name),
            None => named(self.inside, word),
        }
    }
}

/// The name, if there is one and it has this word.
fn named<'a>(name: Option<&'a Name>, word: &Word) -> Option<&'a Name>
    ensures { option_copied result ≡ known (option_to_list (option_copied name.entry)) word.now }
{
    let name = name?;
    if *word == name.word { Some(name) } else { None }
}
