//! Division by a positive number.

ghost use Rattle.std.specs.Prelude.{pos, ◌≤ℤ◌};
ghost use Rattle.hpf_num.specs.Division.{IsFloor, IsCeiling, IsRemainder};

/// The greatest number that isn't above `a / b`.
pub fn div_floor(a: i64, b: i64) -> i64
    requires { pos 1 ≤ℤ b }
    ensures { IsFloor a b result }
{
    a.div_euclid(b)
}

/// The least number that isn't below `a / b`.
pub fn div_ceil(a: i64, b: i64) -> i64
    requires { pos 1 ≤ℤ b }
    ensures { IsCeiling a b result }
{
    let floor = a.div_euclid(b);
    if a.rem_euclid(b) == 0 {
        floor
    } else {
        floor + 1
    }
}

/// What `a` has above the greatest multiple of `b` that isn't above it: from 0 to `b - 1`, for a negative `a` too.
pub fn modulo(a: i64, b: i64) -> i64
    requires { pos 1 ≤ℤ b }
    ensures { IsRemainder a b result }
{
    a.rem_euclid(b)
}
