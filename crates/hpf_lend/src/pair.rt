//! Both ends of one channel.

ghost use Rattle.std.specs.Prelude.{◌≡◌, ◌≤◌, [], IfOk};
ghost use Rattle.hpf_lend.specs.Lending.{IsLender};
ghost use Rattle.hpf_lend.specs.Borrowing.{IsBorrower, IsPair};
ghost use Rattle.hpf_lend.specs.Starts.{LenderStarts, BorrowerStarts};
ghost use Rattle.hpf_lend.specs.History.{IsHistory};

use crate::borrower::Borrower;
use crate::lender::Lender;
use crate::outbox::Outbox;
use crate::shelf::filled;
use rtrb::RingBuffer;
use std::alloc::{AllocError, Global};
use std::collections::VecDeque;

/// The two ends of one channel.
#[derive(Drop)]
pub struct Pair {
    pub lender: Lender,
    pub borrower: Borrower,
}

impl Pair {
    /// A channel with 1 to 8 buffers, numbered from 0 and all at home, each with so many values.
    pub fn new(alloc: Global, buffers: u32, length: u64) -> Result<Pair, AllocError>
        requires { (1 ≤ buffers) × (buffers ≤ 8) }
        ensures pair { IfOk result (λ p. IsPair p.lender p.borrower) }
        ensures lawful { IfOk result (λ p. IsLender p.lender × IsBorrower p.borrower) }
        ensures lender { IfOk result (λ p. LenderStarts p.lender buffers length) }
        ensures history { IfOk result (λ p. IsHistory [] p.lender) }
        ensures borrower { IfOk result (λ p. BorrowerStarts p.borrower buffers) }
    {
        let count = buffers as usize;
        let shelf = filled(alloc, count, length as usize)?;
        let out = VecDeque::with_capacity(alloc, count)?;
        let (forward, messages) = RingBuffer::new(alloc, count + 1)?;
        let (back, homes) = RingBuffer::new(alloc, count)?;
        let kept = VecDeque::with_capacity(alloc, count + 1)?;
        let kept_back = VecDeque::with_capacity(alloc, count + 1)?;
        Ok(Pair {
            lender: Lender::new(
                shelf,
                out,
                Outbox::new(forward, kept),
                homes,
                length as usize,
            ),
            borrower: Borrower::new(messages, Outbox::new(back, kept_back), count),
        })
    }
}
