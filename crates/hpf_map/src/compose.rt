//! Images of an array in the base of its base.

ghost use Rattle.std.specs.Prelude.{◌≡◌, ◌<◌, ◌^◌, ◌+ℤ◌, ◌-ℤ◌, ◌*ℤ◌, map, All, IfOk, unsigned_abs};
ghost use Rattle.hpf_map.specs.Composed.{CanMove, CanCompose, moved, composed};

use crate::name::Span;
use hpf_own::Image;
use std::alloc::{AllocError, Global};

/// `a` times `x`.
fn times(a: i64, x: i64) -> i64
    requires { unsigned_abs (a *ℤ x) < 2 ^ 63 }
    ensures { result ≡ a *ℤ x }
{
    a * x
}

/// `a` plus `b`.
fn plus(a: i64, b: i64) -> i64
    requires { unsigned_abs (a +ℤ b) < 2 ^ 63 }
    ensures { result ≡ a +ℤ b }
{
    a + b
}

/// `a` minus `b`.
fn minus(a: i64, b: i64) -> i64
    requires { unsigned_abs (a -ℤ b) < 2 ^ 63 }
    ensures { result ≡ a -ℤ b }
{
    a - b
}

/// The image whose positions are moved from u to `a` times u plus `b`.
fn moved(array: &[Span], image: Image, a: i64, b: i64) -> Image
    requires { CanMove array.now a b image }
    ensures { result ≡ moved array.now a b image }
{
    match image {
        Image::Along {
            dim,
            a: step,
            b: start,
        } => {
            let low = i64::from(array[dim as usize].low);
            let first = plus(times(a, plus(times(step, low), start)), b);
            let step = times(a, step);
            Image::Along {
                dim,
                a: step,
                b: minus(first, times(step, low)),
            }
        }
        Image::Fixed(n) => Image::Fixed(plus(times(a, n), b)),
        Image::Spread { first, step, count } => Image::Spread {
            first: plus(times(a, first), b),
            step: times(a, step),
            count,
        },
    }
}

/// The image of an array in a dimension of the base of its base.
fn composed(array: &[Span], first: &[Image], second: Image) -> Image
    requires { CanCompose array.now first.now second }
    ensures { result ≡ composed array.now first.now second }
{
    match second {
        Image::Along { dim, a, b } => moved(array, first[dim as usize], a, b),
        Image::Fixed(_) | Image::Spread { .. } => second,
    }
}

/// The images of an array in the base of its base.
#[tactic(auto, using(crate::proofs::MoveLemmas::fixed_fits, crate::proofs::ComposedLemmas::go_through, crate::proofs::ComposedLemmas::composed_images))]
pub(crate) fn all_composed(
    alloc: Global,
    array: &[Span],
    first: &[Image],
    second: &[Image],
) -> Result<Vec<Image>, AllocError>
    requires { All (CanCompose array.now first.now) second.now }
    ensures { IfOk result (λ images. images.items ≡ map (composed array.now first.now) second.now) }
{
    let mut images = Vec::new(alloc);
    for image in second {
        images.push(composed(array, first, *image))?;
    }
    Ok(images)
}
