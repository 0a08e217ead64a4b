//! Values that are there only where all of them are.

ghost use Rattle.std.specs.Prelude.{◌≡◌, [], Some, OnOk, option_map};
ghost use Rattle.hpf_map.specs.Gathered.{with_one};

use std::alloc::{AllocError, Global};
use std::marker::Model;

/// Values that are gathered one after another. They are seen as the list of them, or as none where one was none.
#[derive(Drop)]
pub(crate) struct Gathered<T> {
    items: Vec<T>,
    complete: bool,
}

impl<T> Model for Gathered<T> {
    ghost use Rattle.std.specs.Prelude.{List, Option, Some, None, if◌then◌else◌};

    ghost Value = { Option (List T) };

    ghost view = { λ g. if g.complete then Some g.items.items else None };
}

impl<T: Drop> Gathered<T> {
    /// Nothing yet.
    pub(crate) fn new(alloc: Global) -> Gathered<T>
        ensures { result ≡ Some [] }
    {
        Gathered {
            items: Vec::new(alloc),
            complete: true,
        }
    }

    /// Adds a value at the end.
    pub(crate) fn add(&mut self, item: Option<T>) -> Result<(), AllocError>
        ensures { OnOk result (self.new ≡ with_one self.old item) }
    {
        match item {
            Some(item) => self.items.push(item)?,
            None => self.complete = false,
        }
        Ok(())
    }

    /// The values, where all of them are there.
    pub(crate) fn finish(self) -> Option<Vec<T>>
        ensures { option_map (λ v. v.items) result ≡ self }
    {
        if self.complete {
            Some(self.items)
        } else {
            None
        }
    }
}
