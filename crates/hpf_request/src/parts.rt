//! The marks of the parts of all processors.

ghost use Rattle.std.specs.Prelude.{◌≡◌, ℕ, ℤ, List, [], ◌∷◌, ◌++◌, length, map, All};
ghost use Rattle.hpf_request.specs.Parts.{HaveTaken, IsWithin, marked_by, places};

use crate::part::Part;

/// Adds the frame with this number, counted from 0, to the mark of each part.
pub fn add_frame(parts: &mut [Part], number: u32, frame: &[i32])
    requires { All (IsWithin (length frame.now)) parts.old }
    ensures each { parts.new ≡ map (marked_by number frame.now) parts.old }
    ensures same { places parts.new ≡ places parts.old }
    ensures taken { (extents : List ℕ) (frames : List (List ℤ)) → HaveTaken extents parts.old frames
        → length frames ≡ number → HaveTaken extents parts.new (frames ++ frame.now ∷ []) }
{
    for part in parts.iter_mut() {
        part.add(number, frame);
    }
}
