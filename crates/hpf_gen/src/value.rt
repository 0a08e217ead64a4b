//! The values of generated frames.

ghost use Rattle.std.specs.Prelude.{◌≡◌, ◌+◌, ◌≤◌, ◌^◌, length, map, take};
ghost use Rattle.std.specs.List.{range_with_len};
ghost use Rattle.hpf_gen.specs.Generated.{value};

/// How many values there are before they come again.
const PERIOD: u64 = 65536;

/// Makes the values of so many elements of a frame from this one on, at the front of `into`.
pub(crate) fn make_values(seed: u32, frame: u32, from: u32, count: u32, into: &mut [i32])
    requires room { count ≤ length into.old }
    requires few { from + count ≤ 2 ^ 24 }
    ensures { take count into.new ≡ map (value seed frame) (range_with_len from count) }
{
    for i in 0..count {
        into[i as usize] = value_at(seed, frame, from + i);
    }
}

/// The value of an element of a frame, both counted from 0.
fn value_at(seed: u32, frame: u32, element: u32) -> i32
    ensures { result ≡ value seed frame element }
{
    let sum = u64::from(seed) + 31 * u64::from(frame) + 7 * u64::from(element);
    (sum % PERIOD) as i32 - 32768
}
