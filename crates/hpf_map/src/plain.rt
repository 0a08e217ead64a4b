//! Images that follow a dimension of the array only where that has several elements.

ghost use Rattle.std.specs.Prelude.{◌≡◌, ◌-◌, ◌^◌, ◌≤◌, ◌+ℤ◌, ◌*ℤ◌, length, All, IfOk, unsigned_abs};
ghost use Rattle.hpf_own.specs.Mapping.{FollowsBelow, HasSmallCoefficients, HasSome};
ghost use Rattle.hpf_map.specs.Composed.{AreSound, IsPlain, ArePlain};

use crate::name::Span;
use hpf_own::Image;
use std::alloc::{AllocError, Global};

/// The position of the one element of a dimension.
fn only(a: i64, b: i64, low: i32) -> i64
    requires step { unsigned_abs a ≤ 2 ^ 31 - 1 }
    requires start { unsigned_abs b ≤ 2 ^ 62 }
    requires low { unsigned_abs low ≤ 2 ^ 31 - 1 }
    ensures { result ≡ a *ℤ low +ℤ b }
{
    a * i64::from(low) + b
}

/// An image with the same positions, which follows a dimension of several elements at most.
#[tactic(auto, using(crate::proofs::PlainLemmas::plain_along, crate::proofs::PlainLemmas::plain_spread, crate::proofs::PlainLemmas::plain_itself))]
fn plain(array: &[Span], image: Image) -> Image
    requires bounds { AreSound array.now }
    requires followed { FollowsBelow (length array.now) image }
    requires coefficients { HasSmallCoefficients image }
    requires some { HasSome image }
    ensures { IsPlain array.now image result }
{
    match image {
        Image::Along { dim, a, b } => {
            let Span { low, high } = array[dim as usize];
            if low < high {
                return image;
            }
            Image::Fixed(only(a, b, low))
        }
        Image::Spread { first, count, .. } if count < 2 => Image::Fixed(first),
        Image::Spread { .. } | Image::Fixed(_) => image,
    }
}

/// Such images, one for each of these.
#[tactic(auto, using(std::proofs::lemmas::List::Elements::all_zip_more))]
pub(crate) fn all_plain(
    alloc: Global,
    array: &[Span],
    images: &[Image],
) -> Result<Vec<Image>, AllocError>
    requires bounds { AreSound array.now }
    requires followed { All (FollowsBelow (length array.now)) images.now }
    requires coefficients { All HasSmallCoefficients images.now }
    requires some { All HasSome images.now }
    ensures { IfOk result (λ plain. ArePlain array.now images.now plain.items) }
{
    let mut all = Vec::new(alloc);
    for image in images {
        all.push(plain(array, *image))?;
    }
    Ok(all)
}
