//! The names that are declared.

ghost use Rattle.std.specs.Prelude.{◌≡◌, [], ◌∷◌, ◌++◌, length, OnOk, option_copied};
ghost use Rattle.std.specs.List.{find, list_any, position_from};
ghost use Rattle.hpf_map.specs.Distributions.{fits, is_broken};
ghost use Rattle.hpf_map.specs.Known.{is_named, known, declare, is_full};

use crate::arrangements::{Arrangements, COUNTS, fits};
use crate::name::Name;
use hpf_lex::Word;
use std::alloc::{AllocError, Global};
use std::collections::BTreeMap;
use std::marker::Model;

/// How many names a text may declare.
const MAX_NAMES: usize = 1024;

/// The names that a text declares, each as its first declaration makes it. It is seen as the list of them, in the order
/// of the text.
#[derive(Drop)]
pub struct Names {
    names: Vec<Name>,
    /// The place of each word among them.
    places: BTreeMap<Word, usize>,
    arrangements: Arrangements,
}

impl Model for Names {
    ghost use Rattle.std.specs.Prelude.{List};
    ghost use Rattle.hpf_map.specs.declared.name.Name.{Name};

    ghost Value = { List Name };

    ghost use Rattle.hpf_map.specs.Arrangements.{AreOf};
    ghost use Rattle.hpf_map.specs.Index.{HasPlaces};

    ghost view = { λ n. n.names.items };

    ghost invariant = { λ n. HasPlaces n.names.items n.places × AreOf n.names.items n.arrangements };
}

impl Names {
    /// No names.
    pub(crate) fn new(alloc: Global) -> Names
        ensures { result ≡ [] }
    {
        Names {
            names: Vec::new(alloc),
            places: BTreeMap::new(alloc),
            arrangements: Arrangements::none(),
        }
    }

    /// The names, in the order of the text.
    pub fn as_slice(&self) -> &[Name]
        ensures { result.now ≡ self.now }
    {
        self.names.as_slice()
    }

    /// What is known of a word. None where nothing declares it.
    pub fn find(&self, word: &Word) -> Option<&Name>
        ensures { option_copied result ≡ known self.now word.now }
    {
        match self.places.get(word) {
            Some(place) => Some(&self.names[*place]),
            None => None,
        }
    }

    /// The place of a word among the names, from 0. None where nothing declares it.
    pub(crate) fn place(&self, word: &Word) -> Option<usize>
        ensures { result ≡ position_from (is_named word.now) 0 self.now }
    {
        match self.places.get(word) {
            Some(place) => Some(*place),
            None => None,
        }
    }

    /// The first arrangement of which so many bounds are written.
    pub(crate) fn first_arrangement(&self, count: usize) -> Option<&Name>
        ensures { option_copied result ≡ find (fits count) self.now }
    {
        if count >= COUNTS {
            return self.names.iter().find(|name| fits(count, name));
        }
        match self.arrangements.first[count] {
            Some(place) => Some(&self.names[place]),
            None => None,
        }
    }

    /// Whether some arrangement has a breach.
    pub(crate) fn has_broken_arrangement(&self) -> bool
        ensures { result ≡ list_any is_broken self.now }
    {
        self.arrangements.broken
    }

    /// Whether the next name is the first that is too many.
    pub(crate) fn is_full(&self) -> bool
        ensures { result ≡ is_full self.now }
    {
        self.names.len() == MAX_NAMES
    }

    /// Declares a name, where nothing declares it yet.
    pub(crate) fn declare(&mut self, name: Name) -> Result<(), AllocError>
        ensures { OnOk result (self.new ≡ declare self.old name) }
    {
        if self.find(&name.word).is_some() {
            return Ok(());
        }
        let word = name.word;
        let place = self.names.len();
        let mut arrangements = self.arrangements;
        arrangements.add(&name, place);
        self.names.push(name)?;
        match self.places.insert(word, place) {
            Ok(_) => {
                self.arrangements = arrangements;
                Ok(())
            }
            Err(_) => {
                self.names.pop();
                Err(AllocError)
            }
        }
    }
}
