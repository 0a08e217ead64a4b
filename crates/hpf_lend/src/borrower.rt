//! The end that borrows.

ghost use Rattle.std.specs.Prelude.{◌≡◌, ◌+◌, ◌<◌, ◌≤◌, [], length, true, None, IfSome};

use crate::buffer::Buffer;
use crate::inbox::take_next;
use crate::message::{Answer, Hand, Message};
use crate::outbox::Outbox;
use rtrb::Consumer;
use std::marker::Model;

/// The end of a channel that borrows buffers.
#[derive(Drop)]
pub struct Borrower {
    pub(crate) inbox: Consumer<Message>,
    pub(crate) outbox: Outbox<Buffer>,
    hand: Option<Message>,
    buffers: usize,
    pub(crate) fresh: bool,
}

impl Model for Borrower {
    ghost use Rattle.hpf_lend.specs.Borrowing.{Borrowing};

    ghost Value = { Borrowing };

    ghost use Rattle.hpf_lend.specs.KeepsBorrower.{borrowing, KeepsBorrower};

    ghost view = { borrowing };

    ghost invariant = { KeepsBorrower };
}

impl Borrower {
    ghost use Rattle.hpf_lend.specs.declared.message.Answer.TheVariants.{Done, Waits};
    ghost use Rattle.std.specs.VecDeque.{deque_capacity};
    ghost use Rattle.rtrb.specs.Ring.{producer_capacity, received, known_items};
    ghost use Rattle.hpf_lend.specs.Outbox.{sent_by};
    ghost use Rattle.hpf_lend.specs.Lending.{ring_of};
    ghost use Rattle.hpf_lend.specs.Borrowing.{IsBorrower, SameBorrower};
    ghost use Rattle.hpf_lend.specs.Starts.{BorrowerStarts};
    ghost use Rattle.hpf_lend.specs.Calls.{MatchAnswer, IsFrameAnd, Takes, IsFull, BorrowerWaits, GivesBack};
    ghost use Rattle.hpf_lend.specs.Hand.{hand_of};

    pub(crate) fn new(inbox: Consumer<Message>, outbox: Outbox<Buffer>, buffers: usize) -> Borrower
        requires few { (1 ≤ buffers) × (buffers ≤ 8) }
        requires inbox { (received inbox ≡ []) × (known_items inbox ≡ []) }
        requires outbox { (sent_by outbox ≡ []) × (outbox.kept.items ≡ [])
            × (producer_capacity outbox.ring ≡ buffers) × (deque_capacity outbox.kept ≡ buffers + 1) }
        ensures starts { BorrowerStarts result buffers }
        ensures rings { (result.forward ≡ ring_of inbox.end) × (result.back ≡ ring_of outbox.ring.end) }
    {
        Borrower {
            inbox,
            outbox,
            hand: None,
            buffers,
            fresh: false,
        }
    }

    /// Takes the next message into the hand, which is empty.
    pub fn take(&mut self) -> Answer
        requires { self.old.hand ≡ None }
        ensures end { SameBorrower self.old self.new }
        ensures lawful { IsBorrower self.new }
        ensures answer { MatchAnswer result ((m : Message) × Takes self.old self.new m)
            (BorrowerWaits self.old self.new) }

        // A message that is known is taken, unless no more could be kept; just after the ends have met, no other is.
        ensures known { 0 < length self.old.known → length self.old.kept ≤ self.old.buffers → result ≡ Done }
        ensures fresh { self.old.fresh ≡ true → self.old.known ≡ [] → result ≡ Waits }
        ensures full { IsFull self.old → result ≡ Waits }
    {
        if self.outbox.kept.len() > self.buffers {
            return Answer::Waits;
        }
        match take_next(&mut self.inbox, &mut self.fresh) {
            Some(message) => {
                self.hand = Some(message);
                Answer::Done
            }
            None => Answer::Waits,
        }
    }

    /// The message in hand.
    pub fn hand(&self) -> Hand
        ensures hand { result ≡ hand_of self.now.hand }
        ensures lawful { IsBorrower self.now }
    {
        let _buffers = self.buffers;
        match &self.hand {
            None => Hand::Empty,
            Some(Message::Frame(number, buffer)) => Hand::Frame {
                number: *number,
                home: buffer.number(),
            },
            Some(Message::End(kind)) => Hand::End(*kind),
        }
    }

    /// The values of the frame in hand.
    pub fn values(&self) -> &[i32]
        requires { IsFrameAnd self.now.hand (λ _ _. Unit {0}) }
        ensures { IsFrameAnd self.now.hand (λ _ buffer. result.now ≡ buffer.values) }
    {
        match &self.hand {
            Some(Message::Frame(_, buffer)) => buffer.values(),
            _ => unreachable!(),
        }
    }

    /// Gives back the buffer of the frame in hand.
    pub fn give_back(&mut self)
        requires { IsFrameAnd self.old.hand (λ _ _. Unit {0}) }
        ensures end { SameBorrower self.old self.new }
        ensures lawful { IsBorrower self.new }
        ensures given { IsFrameAnd self.old.hand (GivesBack self.old self.new) }
        ensures kept { length self.new.kept ≤ length self.old.kept + 1 }
        ensures first { length self.new.returned ≤ self.new.buffers → self.new.kept ≡ [] }
    {
        match self.hand.take() {
            Some(Message::Frame(_, buffer)) => self.outbox.send(buffer),
            _ => unreachable!(),
        }
    }

    /// How many buffers the ring hasn't taken.
    pub fn kept(&self) -> u32
        ensures { result ≡ length self.now.kept }
    {
        self.outbox.kept.len() as u32
    }

    /// Gives the ring what is kept, as far as it takes it.
    pub fn flush(&mut self)
        ensures end { SameBorrower self.old self.new }
        ensures lawful { IsBorrower self.new }
        ensures same { self.new ≡ record self.old { kept = self.new.kept } }
        ensures fewer { length self.new.kept ≤ length self.old.kept }
        ensures first { length self.new.returned ≤ self.new.buffers → self.new.kept ≡ [] }
    {
        self.outbox.flush();
    }
}
