ghost use Rattle.std.specs.Prelude.{◌≡◌, None};
ghost use Rattle.hpf_lend.specs.Messages.{ends};
ghost use Rattle.hpf_lend.specs.Borrowing.{IsPair};

use super::*;
use std::process::Abort;
use std::test::Fail;

// A frame goes out, is taken, and its buffer comes home; the two ends don't meet.
fn round(rt: &impl Abort, lender: &mut Lender, borrower: &mut Borrower, frame: u32)
    requires unended { ends lender.old.sent ≡ 0 }
    requires empty { borrower.old.hand ≡ None }
    ensures unended { ends lender.new.sent ≡ 0 }
    ensures empty { borrower.new.hand ≡ None }
{
    assert!(rt; lender.home() > 0);
    let lent = lender.lend(frame);
    assert!(rt; matches!(lent, Answer::Done));
    let took = borrower.take();
    assert!(rt; matches!(took, Answer::Done));
    let hand = borrower.hand();
    assert!(rt; matches!(hand, Hand::Frame { number, home: 0 } if number == frame));
    borrower.give_back();
    let back = lender.take_back();
    assert!(rt; matches!(back, Answer::Done));
    assert_eq!(rt; lender.home(), 2);
    assert_eq!(rt; lender.kept(), 0);
    assert_eq!(rt; borrower.kept(), 0);
}

#[test]
fn ends_that_never_meet(rt: HostRuntime) -> Result<(), Fail> {
    let Pair {
        mut lender,
        mut borrower,
    } = Pair::new(rt.alloc(), 2, 4)?;
    for frame in 0..10 {
        round(&rt, &mut lender, &mut borrower, frame);
    }
    Ok(())
}

// Nothing waits for either end. The ends meet before each call, here and below.
fn nothing_waits(rt: &impl Abort, lender: &mut Lender, borrower: &mut Borrower)
    requires pair { IsPair lender.old borrower.old }
    requires unended { ends lender.old.sent ≡ 0 }
    requires empty { borrower.old.hand ≡ None }
    ensures pair { IsPair lender.new borrower.new }
    ensures unended { ends lender.new.sent ≡ 0 }
    ensures empty { borrower.new.hand ≡ None }
{
    lender.meet(borrower);
    let nothing = borrower.take();
    assert!(rt; matches!(nothing, Answer::Waits));
    lender.meet(borrower);
    let none = lender.take_back();
    assert!(rt; matches!(none, Answer::Waits));
}

// Both buffers go out, and then the end.
fn both_go_out(rt: &impl Abort, lender: &mut Lender, borrower: &mut Borrower)
    requires pair { IsPair lender.old borrower.old }
    requires unended { ends lender.old.sent ≡ 0 }
    requires empty { borrower.old.hand ≡ None }
    ensures pair { IsPair lender.new borrower.new }
    ensures empty { borrower.new.hand ≡ None }
{
    lender.meet(borrower);
    assert!(rt; lender.home() > 0);
    let first = lender.lend(0);
    assert!(rt; matches!(first, Answer::Done));
    lender.meet(borrower);
    assert!(rt; lender.home() > 0);
    let second = lender.lend(1);
    assert!(rt; matches!(second, Answer::Done));
    assert_eq!(rt; lender.home(), 0);
    let end = lender.end(EndKind::Whole);
    assert!(rt; matches!(end, Answer::Done));
    assert_eq!(rt; lender.kept(), 0);
}

// A frame is taken and its buffer comes home.
fn first_comes_home(rt: &impl Abort, lender: &mut Lender, borrower: &mut Borrower)
    requires pair { IsPair lender.old borrower.old }
    requires empty { borrower.old.hand ≡ None }
    ensures pair { IsPair lender.new borrower.new }
    ensures empty { borrower.new.hand ≡ None }
{
    lender.meet(borrower);
    let took = borrower.take();
    assert!(rt; matches!(took, Answer::Done));
    lender.meet(borrower);
    let hand = borrower.hand();
    assert!(rt; matches!(hand, Hand::Frame { number: 0, home: 0 }));
    borrower.give_back();
    lender.meet(borrower);
    let back = lender.take_back();
    assert!(rt; matches!(back, Answer::Done));
    assert_eq!(rt; lender.home(), 1);
}

#[test]
fn two_frames_and_an_end(rt: HostRuntime) -> Result<(), Fail> {
    let Pair {
        mut lender,
        mut borrower,
    } = Pair::new(rt.alloc(), 2, 4)?;
    nothing_waits(&rt, &mut lender, &mut borrower);
    both_go_out(&rt, &mut lender, &mut borrower);
    first_comes_home(&rt, &mut lender, &mut borrower);
    lender.meet(&mut borrower);
    let took = borrower.take();
    assert!(rt; matches!(took, Answer::Done));
    let hand = borrower.hand();
    assert!(rt; matches!(hand, Hand::Frame { number: 1, home: 1 }));
    Ok(())
}

#[test]
fn no_buffer_is_left(rt: HostRuntime) -> Result<(), Fail> {
    let Pair { mut lender, .. } = Pair::new(rt.alloc(), 1, 4)?;
    assert!(rt; lender.home() > 0);
    let lent = lender.lend(0);
    assert!(rt; matches!(lent, Answer::Done));
    assert!(rt; lender.buffer().is_none());
    Ok(())
}

// What is written stays in the buffer, which is at home, and nothing is sent.
#[test]
fn a_buffer_is_written(rt: HostRuntime) -> Result<(), Fail> {
    let Pair {
        mut lender,
        mut borrower,
    } = Pair::new(rt.alloc(), 2, 4)?;
    if let Some(values) = lender.buffer() {
        values.fill(7);
    }
    let written = match lender.buffer() {
        Some(values) => values.len() == 4 && values.first() == Some(&7),
        None => false,
    };
    assert!(rt; written);
    assert_eq!(rt; lender.home(), 2);
    assert_eq!(rt; lender.kept(), 0);
    let nothing = borrower.take();
    assert!(rt; matches!(nothing, Answer::Waits));
    Ok(())
}

#[test]
fn values_go_over(rt: HostRuntime) -> Result<(), Fail> {
    let Pair {
        mut lender,
        mut borrower,
    } = Pair::new(rt.alloc(), 1, 3)?;
    assert!(rt; lender.home() > 0);
    lender.least_values().fill(7);
    assert!(rt; lender.home() > 0);
    let lent = lender.lend(0);
    assert!(rt; matches!(lent, Answer::Done));
    lender.flush();
    let took = borrower.take();
    assert!(rt; matches!(took, Answer::Done));
    let hand = borrower.hand();
    assert!(rt; matches!(hand, Hand::Frame { .. }));
    assert!(rt; borrower.values() == [7, 7, 7].as_slice());
    borrower.flush();
    Ok(())
}
