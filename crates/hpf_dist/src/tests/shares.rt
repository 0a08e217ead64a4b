//! Rows of the integers whose positions a processor owns.

ghost use Rattle.std.specs.Prelude.{◌-◌, ◌^◌, ◌≤◌, unsigned_abs};
ghost use Rattle.hpf_num.specs.Runs.{IsInLimits};

use crate::{Axis, Format};
use hpf_num::Run;
use std::alloc::{AllocError, Global};
use std::process::Abort;
use std::test::Fail;

/// Checks the integers `i` in `bounds` for which coordinate `c` owns position `a * i + b`.
fn check(
    rt: &impl Abort,
    alloc: Global,
    axis: &Axis,
    c: u32,
    a: i64,
    b: i64,
    bounds: Run,
    expected: &[i64],
) -> Result<(), AllocError>
    requires factor { unsigned_abs a ≤ 2 ^ 31 - 1 }
    requires offset { unsigned_abs b ≤ 2 ^ 62 }
    requires limits { IsInLimits bounds }
{
    let runs = axis.runs_of(alloc, c, a, b, bounds)?;
    assert_eq!(rt;
        runs.count(),
        expected.len() as u64,
        "count of {expected:?}"
    );
    for (k, i) in expected.iter().enumerate() {
        assert!(rt;
            runs.nth(k as u64) == Some(*i),
            "member {k} of {expected:?}"
        );
    }
    Ok(())
}

#[test]
fn shares(rt: HostRuntime) -> Result<(), Fail> {
    let alloc = rt.alloc();
    let five = Run { low: 1, high: 5 };
    let ten = Run { low: 1, high: 10 };
    let cyclic = Axis::new(alloc, 1, 10, 3, Format::Cyclic(2))?;
    check(&rt, alloc, &cyclic, 0, 1, 0, ten, &[1, 2, 7, 8])?;
    check(&rt, alloc, &cyclic, 2, 1, 0, ten, &[5, 6])?;
    check(&rt, alloc, &cyclic, 0, 0, 7, five, &[1, 2, 3, 4, 5])?;
    check(&rt, alloc, &cyclic, 0, 0, 11, five, &[])?;
    let strided = Axis::new(alloc, 1, 9, 2, Format::Cyclic(3))?;
    check(&rt, alloc, &strided, 0, 2, -1, five, &[1, 2, 4, 5])?;
    check(&rt, alloc, &strided, 1, 2, -1, ten, &[3])?;
    let block = Axis::new(alloc, 1, 10, 4, Format::Block(3))?;
    check(&rt, alloc, &block, 2, -1, 11, ten, &[2, 3, 4])?;
    check(&rt, alloc, &block, 3, -1, 11, ten, &[1])?;
    check(&rt, alloc, &block, 4, 1, 0, ten, &[])?;
    Ok(())
}
