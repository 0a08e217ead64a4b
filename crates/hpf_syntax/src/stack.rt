//! A stack.

ghost use Rattle.std.specs.Prelude.{◌≡◌, ◌∷◌, [], OnOk, IsTrue, MatchOption, ◌↔◌};

use std::alloc::{AllocError, Global};
use std::marker::Model;

/// A stack. It is seen as the list of its elements from the top down.
#[derive(Drop)]
pub(crate) struct Stack<T> {
    elements: Vec<T>,
}

impl<T> Model for Stack<T> {
    ghost use Rattle.std.specs.Prelude.{List, reverse};

    ghost Value = { List T };

    ghost view = { λ s. reverse s.elements.items };
}

impl<T: Drop> Stack<T> {
    /// The empty stack.
    pub fn new(alloc: Global) -> Stack<T>
        ensures { result ≡ [] }
    {
        Stack {
            elements: Vec::new(alloc),
        }
    }

    /// Whether nothing is on it.
    pub fn is_empty(&self) -> bool
        ensures { IsTrue result ↔ (self.now ≡ []) }
    {
        self.elements.is_empty()
    }

    /// Puts an element on the top.
    pub fn push(&mut self, element: T) -> Result<(), AllocError>
        ensures { OnOk result (self.new ≡ element ∷ self.old) }
    {
        self.elements.push(element)?;
        Ok(())
    }

    /// Takes the top.
    pub fn pop(&mut self) -> Option<T>
        ensures { MatchOption result ((self.old ≡ []) × (self.new ≡ [])) (λ top. self.old ≡ top ∷ self.new) }
    {
        self.elements.pop()
    }
}
