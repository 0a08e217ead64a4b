//! The end that lends.

ghost use Rattle.std.specs.Prelude.{◌≡◌, ℕ, ◌<◌, ◌≤◌, ◌+◌, ◌↔◌, [], ◌∷◌, ◌++◌, length, true, false, Some, None, Bool};

use crate::borrower::Borrower;
use crate::buffer::Buffer;
use crate::inbox::take_next;
use crate::message::{Answer, EndKind, Message};
use crate::outbox::Outbox;
use crate::shelf::{buffer_mut, comes_first, count, frames_in, least_place, put, take_least};
use rtrb::Consumer;
use std::collections::VecDeque;
use std::marker::Model;

/// The end of a channel that lends buffers.
#[derive(Drop)]
pub struct Lender {
    // By number, the buffer that is at home.
    shelf: Vec<Option<Buffer>>,
    // The numbers of those that are out, in the order in which they were lent.
    out: VecDeque<u32>,
    outbox: Outbox<Message>,
    inbox: Consumer<Buffer>,
    size: usize,
    ended: bool,
    strayed: bool,
    fresh: bool,
}

impl Model for Lender {
    ghost use Rattle.hpf_lend.specs.Lending.{Lending};

    ghost Value = { Lending };

    ghost use Rattle.hpf_lend.specs.KeepsLender.{lending, KeepsLender};

    ghost view = { lending };

    ghost invariant = { KeepsLender };
}

impl Lender {
    ghost use Rattle.hpf_lend.specs.Shelf.{IsShelf, homes, least};
    ghost use Rattle.hpf_lend.specs.declared.message.Answer.TheVariants.{Done, Waits};
    ghost use Rattle.hpf_lend.specs.Plain.{Plain};
    ghost use Rattle.hpf_lend.specs.Messages.{lent, ends};
    ghost use Rattle.hpf_lend.specs.Calls.{MatchAnswer, Lends, Ends, ComesHome, TakesBack, LenderWaits, KeepsAll};
    ghost use Rattle.std.specs.VecDeque.{deque_capacity};
    ghost use Rattle.rtrb.specs.Ring.{producer_capacity, received, known_items};
    ghost use Rattle.hpf_lend.specs.Outbox.{sent_by};
    ghost use Rattle.hpf_lend.specs.Lending.{IsLender, ring_of, numbers_lent, numbers_taken};
    ghost use Rattle.hpf_lend.specs.History.{Lent, Back, Lawful, IsLeastHome, IsHistory, GoesOnWith, KeepsHistory};
    ghost use Rattle.hpf_lend.specs.Starts.{LenderStarts};
    ghost use Rattle.std.specs.Prelude.{IfSome, IsNone, IsTrue};
    ghost use Rattle.std.specs.Borrow.{sem};
    ghost use mathlib.Core.List.{IsPrefix};
    ghost use Rattle.hpf_lend.specs.Filling.{LendsLeast};
    ghost use Rattle.hpf_lend.specs.Borrowing.{IsBorrower, IsPair, HaveMet, SameLender, SameBorrower};

    pub(crate) fn new(
        shelf: Vec<Option<Buffer>>,
        out: VecDeque<u32>,
        outbox: Outbox<Message>,
        inbox: Consumer<Buffer>,
        size: usize,
    ) -> Lender
        requires few { (1 ≤ length shelf.items) × (length shelf.items ≤ 8) }
        requires home { IsShelf size 0 shelf.items × (homes shelf.items ≡ length shelf.items) }
        requires out { (out.items ≡ []) × (deque_capacity out ≡ length shelf.items) }
        requires outbox { (sent_by outbox ≡ []) × (outbox.kept.items ≡ [])
            × (producer_capacity outbox.ring ≡ length shelf.items + 1) × (deque_capacity outbox.kept ≡ length shelf.items + 1) }
        requires inbox { (received inbox ≡ []) × (known_items inbox ≡ []) }
        ensures starts { LenderStarts result (length shelf.items) size }
        ensures history { IsHistory [] result }
        ensures rings { (result.forward ≡ ring_of outbox.ring.end) × (result.back ≡ ring_of inbox.end) }
    {
        Lender {
            shelf,
            out,
            outbox,
            inbox,
            size,
            ended: false,
            strayed: false,
            fresh: false,
        }
    }

    /// How many buffers are at home.
    pub fn home(&self) -> u32
        ensures home { result ≡ homes self.now.shelf }
        ensures lawful { IsLender self.now }
        ensures law { self.now.strayed ≡ false
            → Lawful (length self.now.shelf) (numbers_lent self.now) (numbers_taken self.now) }
    {
        count(self.shelf.as_slice()) as u32
    }

    /// Sends the buffer at home with the least number as this frame. `Waits` exactly where the lender has strayed.
    pub fn lend(&mut self, frame: u32) -> Answer
        requires home { 0 < homes self.old.shelf }
        requires unended { ends self.old.sent ≡ 0 }
        ensures end { SameLender self.old self.new }
        ensures answer { MatchAnswer result ((buffer : Plain) × Lends self.old self.new frame buffer)
            (self.new ≡ self.old) }
        ensures waits { (result ≡ Waits) ↔ (self.old.strayed ≡ true) }
        ensures first { length self.new.sent ≤ length self.new.shelf + 1 → result ≡ Done → self.new.kept ≡ [] }
        ensures unended { ends self.new.sent ≡ 0 }
        ensures lawful { IsLender self.new }
        ensures history { IfSome (least self.old.shelf) (λ b. result ≡ Done
            → GoesOnWith (Lent b.number) self.old self.new) }
        ensures least { IfSome (least self.old.shelf) (λ b. self.old.strayed ≡ false
            → IsLeastHome (length self.old.shelf) (numbers_lent self.old) (numbers_taken self.old) b.number) }
    {
        if self.strayed {
            return Answer::Waits;
        }
        match take_least(&mut self.shelf) {
            Some(buffer) => {
                self.out.push_back_reserved(buffer.number());
                self.outbox.send(Message::Frame(frame, buffer));
                Answer::Done
            }
            None => unreachable!(),
        }
    }

    /// Sends the end. `Waits` exactly where the lender has strayed.
    pub fn end(&mut self, kind: EndKind) -> Answer
        requires unended { ends self.old.sent ≡ 0 }
        ensures end { SameLender self.old self.new }
        ensures answer { MatchAnswer result (Ends self.old self.new kind) (self.new ≡ self.old) }
        ensures waits { (result ≡ Waits) ↔ (self.old.strayed ≡ true) }
        ensures lawful { IsLender self.new }
        ensures history { KeepsHistory self.old self.new }
        ensures first { length self.new.sent ≤ length self.new.shelf + 1 → result ≡ Done → self.new.kept ≡ [] }
    {
        if self.strayed {
            return Answer::Waits;
        }
        self.ended = true;
        self.outbox.send(Message::End(kind));
        Answer::Done
    }

    /// Takes back the next buffer that comes. Where it isn't the one that was out longest, the lender strays.
    pub fn take_back(&mut self) -> Answer
        ensures end { SameLender self.old self.new }
        ensures answer { MatchAnswer result (TakesBack self.old self.new) (LenderWaits self.old self.new) }
        ensures sent { self.new.sent ≡ self.old.sent }

        // What is known is taken back, unless all that is out is kept; just after the ends have met, nothing else is.
        ensures known { 0 < length self.old.known → self.old.strayed ≡ false
            → length (lent self.old.kept) < length self.old.out → result ≡ Done }
        ensures fresh { self.old.fresh ≡ true → self.old.known ≡ [] → result ≡ Waits }
        ensures held_back { KeepsAll self.old → result ≡ Waits }
        ensures lawful { IsLender self.new }
        ensures history { (buffer : Plain) → ComesHome self.old self.new buffer
            → GoesOnWith (Back buffer.number) self.old self.new }
        ensures same_history { result ≡ Waits → KeepsHistory self.old self.new }
    {
        if self.strayed || frames_in(&self.outbox.kept) >= self.out.len() {
            return Answer::Waits;
        }
        match take_next(&mut self.inbox, &mut self.fresh) {
            Some(buffer) => {
                if comes_first(&self.out, self.size, &buffer) {
                    self.out.pop_front();
                    put(&mut self.shelf, buffer);
                } else {
                    self.strayed = true;
                }
                Answer::Done
            }
            None => Answer::Waits,
        }
    }

    /// Gives the ring what is kept, as far as it takes it.
    pub fn flush(&mut self)
        ensures end { SameLender self.old self.new }
        ensures same { self.new ≡ record self.old { kept = self.new.kept } }
        ensures lawful { IsLender self.new }
        ensures history { KeepsHistory self.old self.new }
        ensures fewer { length self.new.kept ≤ length self.old.kept }
        ensures first { length self.new.sent ≤ length self.new.shelf + 1 → self.new.kept ≡ [] }
    {
        self.outbox.flush();
    }

    /// The values of the buffer at home that has the least number. `None` exactly where none is at home. No clause
    /// says what the lender is after they were written: `least_values` does.
    pub fn buffer(&mut self) -> Option<&mut [i32]>
        ensures none { IsNone result ↔ (homes self.old.shelf ≡ 0) }
        ensures value { IfSome result (λ r. IfSome (least self.old.shelf) (λ b. r.now ≡ b.values)) }
        ensures size { IfSome result (λ r. length r.now ≡ self.old.size) }
    {
        if self.has_home() {
            Some(self.least_values())
        } else {
            None
        }
    }

    fn has_home(&self) -> bool
        ensures { IsTrue result ↔ (0 < homes self.now.shelf) }
    {
        count(self.shelf.as_slice()) > 0
    }

    /// The same for writing, where a buffer is at home.
    pub fn least_values(&mut self) -> &mut [i32]
        requires { 0 < homes self.old.shelf }
        ensures* writes { sem 𝓛 (LendsLeast self.entry result) }
        ensures value { IfSome (least self.old.shelf) (λ b. result.now ≡ b.values) }
        ensures size { length result.now ≡ self.old.size }
    {
        let place = least_place(self.shelf.as_slice());
        buffer_mut(&mut self.shelf[place]).values_mut()
    }

    /// How many messages the ring hasn't taken.
    pub fn kept(&self) -> u32
        ensures { result ≡ length self.now.kept }
    {
        self.outbox.kept.len() as u32
    }

    /// Lets both ends of one channel know all that waits for them. No list changes.
    pub fn meet(&mut self, borrower: &mut Borrower)
        requires { IsPair self.old borrower.old }
        ensures ends { SameLender self.old self.new × SameBorrower borrower.old borrower.new
            × IsPair self.new borrower.new }
        ensures lender { self.new ≡ record self.old { kept = []; known = self.new.known; fresh = true } }
        ensures borrower { borrower.new ≡ record borrower.old { kept = []; known = borrower.new.known; fresh = true } }
        ensures knew { IsPrefix self.old.known self.new.known × IsPrefix borrower.old.known borrower.new.known }
        ensures straight { self.old.strayed ≡ false }
        ensures lawful { IsLender self.new × IsBorrower borrower.new }
        ensures history { KeepsHistory self.old self.new }
        ensures met { HaveMet self.new borrower.new }
    {
        self.outbox.show(&mut borrower.inbox);
        borrower.outbox.show(&mut self.inbox);
        self.outbox.meet(&mut borrower.inbox);
        borrower.outbox.meet(&mut self.inbox);
        self.fresh = true;
        borrower.fresh = true;
    }
}
