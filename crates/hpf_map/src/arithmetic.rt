//! Sums and products of the numbers of a text, which never leave the range of their type.

ghost use Rattle.std.specs.Prelude.{◌≡◌, ◌≢◌, ◌≤◌, ◌^◌, pos, ◌+ℤ◌, ◌-ℤ◌, ◌*ℤ◌, unsigned_abs, int_div};
ghost use Rattle.hpf_num.specs.Run.{or_zero};

/// `a - b`.
pub(crate) fn difference(a: i32, b: i32) -> i64
    ensures value { result ≡ a -ℤ b }
    ensures small { unsigned_abs result ≤ 2 ^ 62 }
{
    i64::from(a) - i64::from(b)
}

/// `a * b`.
pub(crate) fn product(a: i32, b: i32) -> i64
    ensures value { result ≡ a *ℤ b }
    ensures small { unsigned_abs result ≤ 2 ^ 62 }
{
    i64::from(a) * i64::from(b)
}

/// `a + b`.
pub(crate) fn sum(a: i64, b: i32) -> i64
    requires { unsigned_abs a ≤ 2 ^ 62 }
    ensures { result ≡ a +ℤ b }
{
    a + i64::from(b)
}

/// `a - b`.
pub(crate) fn less(a: i32, b: i64) -> i64
    requires { unsigned_abs b ≤ 2 ^ 62 }
    ensures { result ≡ a -ℤ b }
{
    i64::from(a) - b
}

/// `a / b` rounded toward 0, or 0 where that is negative.
pub(crate) fn quotient(a: i64, b: i32) -> u64
    requires { b ≢ pos 0 }
    ensures { result ≡ or_zero (int_div a b) }
{
    if (a < 0) == (b < 0) {
        a.unsigned_abs() / u64::from(b.unsigned_abs())
    } else {
        0
    }
}
