//! The buffers at home, each at the place of its number.

ghost use Rattle.std.specs.Prelude.{◌≡◌, ℕ, ◌+◌, ◌<◌, List, ◌∷◌, length, IsTrue, IsFalse, IfOk, ◌≤◌};
ghost use Rattle.hpf_lend.specs.Shelf.{IsShelf, homes, least, IsLeastAt, without_least, with_buffer};
ghost use Rattle.hpf_lend.specs.Plain.{home_of, home_with};
ghost use Rattle.hpf_lend.specs.Messages.{lent};
ghost use Rattle.std.specs.Prelude.{IsSome, Some};
ghost use Rattle.std.specs.Borrow.{sem};
ghost use Rattle.hpf_lend.specs.Writing.{LendsPlace};

use crate::buffer::Buffer;
use crate::message::Message;
use std::alloc::{AllocError, Global};
use std::collections::VecDeque;

/// A shelf with all its buffers.
pub(crate) fn filled(
    alloc: Global,
    count: usize,
    size: usize,
) -> Result<Vec<Option<Buffer>>, AllocError>
    requires { count ≤ 8 }
    ensures shelf { IfOk result (λ shelf. IsShelf size 0 shelf.items) }
    ensures home { IfOk result (λ shelf. homes shelf.items ≡ count) }
    ensures count { IfOk result (λ shelf. length shelf.items ≡ count) }
{
    let mut shelf = Vec::new(alloc);
    for number in 0..count {
        let values = vec![in alloc; 0i32; size]?;
        shelf.push(Some(Buffer::new(number as u32, values)))?;
    }
    Ok(shelf)
}

/// How many buffers are at home.
#[tactic(auto, using(crate::proofs::Shelves::homes_le))]
pub(crate) fn count(shelf: &[Option<Buffer>]) -> usize
    ensures { result ≡ homes shelf.now }
{
    let mut count = 0;
    for place in shelf {
        if place.is_some() {
            count += 1;
        }
    }
    count
}

/// Takes the buffer at home that has the least number.
pub(crate) fn take_least(shelf: &mut Vec<Option<Buffer>>) -> Option<Buffer>
    ensures value { result ≡ least shelf.old.items }
    ensures rest { shelf.new.items ≡ without_least shelf.old.items }
{
    take_first(shelf.as_mut_slice())
}

fn take_first(shelf: &mut [Option<Buffer>]) -> Option<Buffer>
    ensures value { result ≡ least shelf.old }
    ensures rest { shelf.new ≡ without_least shelf.old }
{
    let mut place = 0;
    while place < shelf.len() {
        if let Some(buffer) = shelf[place].take() {
            return Some(buffer);
        }
        place += 1;
    }
    None
}

/// Puts a buffer at its place.
pub(crate) fn put(shelf: &mut Vec<Option<Buffer>>, buffer: Buffer)
    requires { buffer.number < length shelf.old.items }
    ensures { shelf.new.items ≡ with_buffer shelf.old.items buffer }
{
    let place = buffer.number() as usize;
    shelf[place] = Some(buffer);
}

/// How many of these messages are frames.
pub(crate) fn frames_in(messages: &VecDeque<Message>) -> usize
    ensures { result ≡ length (lent messages.now.items) }
{
    let mut count = 0;
    for place in 0..messages.len() {
        count += usize::from(messages[place].is_frame());
    }
    count
}

/// Whether this buffer, with so many values, is the one that was out longest.
pub(crate) fn comes_first(out: &VecDeque<u32>, size: usize, buffer: &Buffer) -> bool
    ensures yes { IsTrue result → (rest : List ℕ) × (out.now.items ≡ buffer.now.number ∷ rest)
        × (home_of buffer.now ≡ home_with size buffer.now.number) }
    ensures no { IsFalse result → (rest : List ℕ) (longest : ℕ) → out.now.items ≡ longest ∷ rest
        → home_of buffer.now ≡ home_with size longest → ⊥ }
{
    match out.front() {
        Some(longest) => *longest == buffer.number() && buffer.values().len() == size,
        None => false,
    }
}

/// The buffer at its place, for writing.
pub(crate) fn buffer_mut(place: &mut Option<Buffer>) -> &mut Buffer
    requires { IsSome place.old }
    ensures* writes { sem 𝓛 (LendsPlace place.entry result) }
    ensures value { place.old ≡ Some result.now }
{
    match place {
        Some(buffer) => buffer,
        None => unreachable!(),
    }
}

/// The place of the buffer at home that has the least number.
pub(crate) fn least_place(shelf: &[Option<Buffer>]) -> usize
    requires { 0 < homes shelf.now }
    ensures { IsLeastAt shelf.now result }
{
    let mut place = 0;
    while place < shelf.len() {
        if shelf[place].is_some() {
            return place;
        }
        place += 1;
    }
    unreachable!()
}
