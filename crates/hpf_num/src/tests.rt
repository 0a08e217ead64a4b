//! Worked rows.

ghost use Rattle.std.specs.Prelude.{◌≤ℤ◌, ◌<ℤ◌};
ghost use Rattle.hpf_num.specs.Runs.{IsInLimits};

use super::*;
use std::alloc::{AllocError, Global};
use std::process::Abort;
use std::test::Fail;

#[test]
fn division(rt: HostRuntime) {
    let rows = [
        (7, 3, 2, 3, 1),
        (-7, 3, -3, -2, 2),
        (6, 3, 2, 2, 0),
        (-6, 3, -2, -2, 0),
        (0, 5, 0, 0, 0),
        (-1, i64::MAX, -1, 0, i64::MAX - 1),
        (i64::MIN, 1, i64::MIN, i64::MIN, 0),
        (i64::MAX, 1, i64::MAX, i64::MAX, 0),
        (i64::MIN, 2, i64::MIN / 2, i64::MIN / 2, 0),
        (i64::MIN, i64::MAX, -2, -1, i64::MAX - 1),
    ];
    for (a, b, floor, ceiling, remainder) in rows {
        if b >= 1 {
            assert_eq!(rt; div_floor(a, b), floor, "floor of {a} by {b}");
            assert_eq!(rt; div_ceil(a, b), ceiling, "ceiling of {a} by {b}");
            assert_eq!(rt; modulo(a, b), remainder, "remainder of {a} by {b}");
        }
    }
}

/// The integers of three runs, each above those before it.
fn list(alloc: Global, first: Run, second: Run, third: Run) -> Result<Runs, AllocError>
    requires first { IsInLimits first }
    requires second { IsInLimits second }
    requires third { IsInLimits third }
    requires apart { first.high <ℤ second.low }
    requires apart_too { first.high <ℤ third.low }
    requires rest_apart { second.high <ℤ third.low }
{
    let mut runs = Runs::new(alloc);
    runs.push(alloc, first)?;
    runs.push(alloc, second)?;
    runs.push(alloc, third)?;
    Ok(runs)
}

/// 1, 2, 7, 8 and 9.
fn five(alloc: Global) -> Result<Runs, AllocError> {
    list(
        alloc,
        Run { low: 1, high: 2 },
        Run { low: 7, high: 8 },
        Run { low: 9, high: 9 },
    )
}

/// Checks the members, one after another, and their places.
fn check(rt: &impl Abort, runs: &Runs, expected: &[i64]) {
    assert_eq!(rt;
        runs.count(),
        expected.len() as u64,
        "members of {expected:?}"
    );
    for (k, i) in expected.iter().enumerate() {
        assert!(rt;
            runs.nth(k as u64) == Some(*i),
            "member {k} of {expected:?}"
        );
        assert!(rt; runs.rank(*i) == Some(k as u64), "place of {i}");
    }
    assert!(rt;
        runs.nth(runs.count()) == None,
        "past the end of {expected:?}"
    );
}

#[test]
fn runs_of_members(rt: HostRuntime) -> Result<(), Fail> {
    let runs = five(rt.alloc())?;
    check(&rt, &runs, &[1, 2, 7, 8, 9]);
    assert!(rt; runs.rank(0) == None && runs.rank(3) == None && runs.rank(10) == None);
    assert_eq!(rt; runs.runs(), 2);
    assert!(rt; runs.run(0) == Some(Run { low: 1, high: 2 }));
    assert!(rt; runs.run(1) == Some(Run { low: 7, high: 9 }));
    assert!(rt; runs.run(2) == None);
    Ok(())
}

#[test]
fn preimages(rt: HostRuntime) -> Result<(), Fail> {
    let alloc = rt.alloc();
    let runs = five(alloc)?;
    let ten = Run { low: 0, high: 10 };
    check(&rt, &runs.preimage(alloc, 1, 0, ten)?, &[1, 2, 7, 8, 9]);
    check(&rt, &runs.preimage(alloc, -1, 10, ten)?, &[1, 2, 3, 8, 9]);
    check(&rt, &runs.preimage(alloc, 3, -1, ten)?, &[1, 3]);
    check(&rt, &runs.preimage(alloc, -3, 10, ten)?, &[1, 3]);
    check(
        &rt,
        &runs.preimage(alloc, 0, 7, Run { low: 4, high: 6 })?,
        &[4, 5, 6],
    );
    check(&rt, &runs.preimage(alloc, 0, 3, ten)?, &[]);
    let top = Run {
        low: 2147483640,
        high: 2147483647,
    };
    check(
        &rt,
        &runs.preimage(alloc, 2147483647, -4611686018427387904, top)?,
        &[],
    );
    check(
        &rt,
        &runs.preimage(alloc, -2147483647, 4611686018427387904, top)?,
        &[],
    );
    Ok(())
}

#[test]
fn widened(rt: HostRuntime) -> Result<(), Fail> {
    let alloc = rt.alloc();
    let runs = five(alloc)?;
    let ten = Run { low: 1, high: 10 };
    check(
        &rt,
        &runs.widen(alloc, 1, 2, ten)?,
        &[1, 2, 3, 4, 6, 7, 8, 9, 10],
    );
    check(&rt, &runs.widen(alloc, 0, 0, ten)?, &[1, 2, 7, 8, 9]);
    check(
        &rt,
        &runs.widen(alloc, 2, 0, Run { low: -3, high: 6 })?,
        &[-1, 0, 1, 2, 5, 6],
    );
    let all = runs.widen(alloc, 2147483647, 2147483647, Run { low: 3, high: 5 })?;
    check(&rt, &all, &[3, 4, 5]);
    Ok(())
}

#[test]
fn met(rt: HostRuntime) -> Result<(), Fail> {
    let alloc = rt.alloc();
    let runs = five(alloc)?;
    let others = list(
        alloc,
        Run { low: 2, high: 3 },
        Run { low: 5, high: 4 },
        Run { low: 8, high: 11 },
    )?;
    check(&rt, &runs.meet(alloc, &others)?, &[2, 8, 9]);
    check(&rt, &others.meet(alloc, &runs)?, &[2, 8, 9]);
    Ok(())
}

#[test]
fn empty(rt: HostRuntime) -> Result<(), Fail> {
    let alloc = rt.alloc();
    let none = Runs::new(alloc);
    check(&rt, &none, &[]);
    assert!(rt; none.runs() == 0 && none.run(0) == None && none.rank(0) == None);
    check(&rt, &none.meet(alloc, &five(alloc)?)?, &[]);
    check(&rt, &five(alloc)?.meet(alloc, &none)?, &[]);
    check(
        &rt,
        &none.preimage(alloc, 0, 0, Run { low: 1, high: 3 })?,
        &[],
    );
    check(&rt, &none.widen(alloc, 3, 3, Run { low: 1, high: 3 })?, &[]);
    check(
        &rt,
        &five(alloc)?.widen(alloc, 3, 3, Run { low: 3, high: 1 })?,
        &[],
    );
    Ok(())
}
