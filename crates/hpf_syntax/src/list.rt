//! Lists that the tree is made of.

ghost use Rattle.std.specs.Prelude.{◌≡◌, [], ◌∷◌, ◌++◌, OnOk, IfOk};

use crate::tree::Item;
use std::alloc::{AllocError, Global};
use std::marker::Model;

/// A list in the tree. It is seen as the list of its elements.
#[derive(Drop)]
pub struct List<T> {
    elements: Vec<T>,
}

impl<T> Model for List<T> {
    ghost use Rattle.std.specs.Prelude.{List};

    ghost Value = { List T };

    ghost view = { λ l. l.elements.items };
}

impl<T> List<T> {
    /// The list of nothing.
    pub(crate) fn new(alloc: Global) -> List<T>
        ensures { result ≡ [] }
    {
        List {
            elements: Vec::new(alloc),
        }
    }

    /// Its elements, in order.
    pub fn as_slice(&self) -> &[T]
        ensures { result.now ≡ self.now }
    {
        self.elements.as_slice()
    }
}

impl<T: Drop> List<T> {
    /// The list of one element.
    pub(crate) fn of_one(alloc: Global, element: T) -> Result<List<T>, AllocError>
        ensures { IfOk result (λ list. list ≡ element ∷ []) }
    {
        let mut elements = Vec::new(alloc);
        elements.push(element)?;
        Ok(List { elements })
    }

    /// Adds an element at the end.
    pub(crate) fn push(&mut self, element: T) -> Result<(), AllocError>
        ensures { OnOk result (self.new ≡ self.old ++ element ∷ []) }
    {
        self.elements.push(element)?;
        Ok(())
    }
}

/// The statements of a text. It is seen as the list of them.
#[derive(Drop)]
pub struct Items {
    elements: Vec<Item>,
}

impl Model for Items {
    ghost use Rattle.std.specs.Prelude.{List};
    ghost use Rattle.hpf_syntax.specs.declared.tree.Item.{Item};

    ghost Value = { List Item };

    ghost use Rattle.hpf_syntax.specs.contracts.tree.Expr as expr;
    ghost use Rattle.std.specs.Coded.{codes};

    ghost coded = { Prim.hlevel (codes, expr.the_row.coded) };

    ghost view = { λ l. l.elements.items };
}

impl Items {
    /// No statements.
    pub(crate) fn new(alloc: Global) -> Items
        ensures { result ≡ [] }
    {
        Items {
            elements: Vec::new(alloc),
        }
    }

    /// Adds a statement at the end.
    pub(crate) fn push(&mut self, item: Item) -> Result<(), AllocError>
        ensures { OnOk result (self.new ≡ self.old ++ item ∷ []) }
    {
        self.elements.push(item)?;
        Ok(())
    }

    /// The statements, in order.
    pub fn as_slice(&self) -> &[Item]
        ensures { result.now ≡ self.now }
    {
        self.elements.as_slice()
    }
}
