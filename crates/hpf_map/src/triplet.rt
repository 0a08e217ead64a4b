//! Triplets of ALIGN.

ghost use Rattle.std.specs.Prelude.{◌≡◌, ◌≢◌, unwrap_or, pos};
ghost use Rattle.hpf_map.specs.Alignments.{first, last, step, triplet_extent, matches, triplet_image};

use crate::arithmetic::{difference, less, product, quotient, sum};
use crate::name::Span;
use crate::shapes::extent;
use hpf_own::Image;

/// A triplet, of which the parts that aren't written are none.
#[derive(Clone, Copy)]
pub(crate) struct Triplet {
    pub low: Option<i32>,
    pub high: Option<i32>,
    pub step: Option<i32>,
}

/// What is written, or else this.
fn written_or(written: Option<i32>, default: i32) -> i32
    ensures { result ≡ unwrap_or written default }
{
    match written {
        Some(value) => value,
        None => default,
    }
}

impl Triplet {
    /// The first position.
    fn first(&self, base: Span) -> i32
        ensures { result ≡ first self.now.low self.now.high self.now.step base }
    {
        written_or(self.low, base.low)
    }

    /// The bound that no position passes.
    fn last(&self, base: Span) -> i32
        ensures { result ≡ last self.now.low self.now.high self.now.step base }
    {
        written_or(self.high, base.high)
    }

    /// How far two positions are apart.
    fn step(&self, base: Span) -> i32
        ensures { result ≡ step self.now.low self.now.high self.now.step base }
    {
        let _ = base;
        written_or(self.step, 1)
    }

    /// How many positions there are.
    #[tactic(auto, unfolding(crate::specs::Alignments::triplet_extent))]
    fn extent(&self, base: Span) -> u64
        requires { step self.now.low self.now.high self.now.step base ≢ pos 0 }
        ensures { result ≡ triplet_extent self.now.low self.now.high self.now.step base }
    {
        let step = self.step(base);
        let reach = difference(self.last(base), self.first(base));
        quotient(sum(reach, step), step)
    }

    /// Whether it has a step other than 0, and as many positions as a dimension of the array has elements.
    pub(crate) fn matches(&self, base: Span, array: Span) -> bool
        ensures { result ≡ matches self.now.low self.now.high self.now.step base array }
    {
        self.step(base) != 0 && self.extent(base) == extent(&array)
    }

    /// Where the elements of dimension `dim` of the array lie.
    pub(crate) fn image(&self, base: Span, dim: u32, array: Span) -> Image
        ensures { result ≡ triplet_image self.now.low self.now.high self.now.step base dim array }
    {
        let step = self.step(base);
        Image::Along {
            dim,
            a: i64::from(step),
            b: less(self.first(base), product(step, array.low)),
        }
    }
}
