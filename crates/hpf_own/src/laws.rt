//! Laws of mappings, each the contract of a function that does nothing.

ghost use Rattle.std.specs.Prelude.{◌≡◌, ◌↔◌, ◌+◌, ◌*◌, ◌<◌, ◌≤◌, ℕ, List, length, slice_index, slice_index_or, slice_get, Some, map, filter, take, All, Contains, IsTrue, ℤ};
ghost use Rattle.hpf_num.specs.declared.run.Run.{Run};
ghost use Rattle.hpf_num.specs.Run.{extent};
ghost use Rattle.hpf_own.specs.Space.{indices, LiesIn, AreCoordinates, product, size_of};
ghost use Rattle.hpf_own.specs.Mapping.{PlainMapping, IsMapping};
ghost use Rattle.hpf_own.specs.Alike.{AreAlike};
ghost use Rattle.hpf_own.specs.Owners.{coordinates, owners, owns, sender, sends};
ghost use Rattle.hpf_own.specs.Held.{Part, IsMadeOf, is_held, owned_part, held_part};
ghost use Rattle.hpf_own.specs.Places.{AreRanks, place_of, ranks_in};
ghost use Rattle.hpf_own.specs.KeptLists.{no_width};
ghost use Rattle.hpf_own.specs.Lists.{IsPerm};
ghost use Rattle.hpf_own.specs.Correspondence.{ExtentsAgree, Corresponds, corresponding};

/// The element order lists every index once, and nothing else.
pub fn element_order()
    ensures only { (bounds : List Run) (k : ℕ) (d : List ℤ) → k < length (indices bounds)
        → LiesIn bounds (slice_index_or (indices bounds) k d) }
    ensures every { (bounds : List Run) (index : List ℤ) → LiesIn bounds index → Contains (indices bounds) index }
    ensures once { (bounds : List Run) (i j : ℕ) (d : List ℤ)
        → i < length (indices bounds) → j < length (indices bounds)
        → slice_index_or (indices bounds) i d ≡ slice_index_or (indices bounds) j d → i ≡ j }
    ensures size { (bounds : List Run) → length (indices bounds) ≡ size_of bounds }
{}

/// The numbers of the processors of an arrangement and their coordinates are each other's inverse.
pub fn processor_numbers()
    ensures below { (sizes : List ℕ) (p : ℕ) → p < product sizes → AreCoordinates sizes (coordinates sizes p) }
    ensures one_number { (sizes : List ℕ) (p q : ℕ) → p < product sizes → q < product sizes
        → coordinates sizes p ≡ coordinates sizes q → p ≡ q }
    ensures some_number { (sizes at : List ℕ) → AreCoordinates sizes at
        → (p : ℕ) × (p < product sizes) × (coordinates sizes p ≡ at) }
{}

/// Products of sizes: none is 0 where no size is, one size more multiplies it, and a front of the sizes or one of them
/// alone comes to no more.
pub fn products()
    ensures some { (sizes : List ℕ) → All (λ size. 1 ≤ size) sizes → 1 ≤ product sizes }
    ensures more { (sizes : List ℕ) (k : ℕ) → k < length sizes
        → product (take (k + 1) sizes) ≡ product (take k sizes) * slice_index sizes k }
    ensures front { (sizes : List ℕ) (k : ℕ) → All (λ size. 1 ≤ size) sizes → product (take k sizes) ≤ product sizes }
    ensures one { (sizes : List ℕ) (k : ℕ) → All (λ size. 1 ≤ size) sizes → k < length sizes
        → slice_index sizes k ≤ product sizes }
{}

/// Each element has an owner.
pub fn some_owner()
    ensures { (m : PlainMapping) (index : List ℤ) → IsMapping m → LiesIn m.bounds index
        → (p : ℕ) × (p < product m.procs) × IsTrue (owns m p index) }
{}

/// The sender of an element that has an owner is the least of its owners.
pub fn least_owner()
    ensures owner { (m : PlainMapping) (index : List ℤ) (p : ℕ) → p < product m.procs → IsTrue (owns m p index)
        → IsTrue (owns m (sender m index) index) }
    ensures least { (m : PlainMapping) (index : List ℤ) (p : ℕ) → p < product m.procs → IsTrue (owns m p index)
        → sender m index ≤ p }
{}

/// Each element has one sender: the processor that sends and owns it.
pub fn one_sender()
    ensures below { (m : PlainMapping) (index : List ℤ) → IsMapping m → LiesIn m.bounds index
        → sender m index < product m.procs }
    ensures exactly { (m : PlainMapping) (p : ℕ) (index : List ℤ) → IsMapping m → p < product m.procs
        → LiesIn m.bounds index → (sender m index ≡ p) ↔ (IsTrue (sends m p) × IsTrue (owns m p index)) }
{}

/// A processor sends all elements that it owns, or none.
pub fn all_or_nothing()
    ensures { (m : PlainMapping) (p : ℕ) (index : List ℤ) → IsMapping m → p < product m.procs → LiesIn m.bounds index
        → IsTrue (sends m p) → IsTrue (owns m p index) → sender m index ≡ p }
{}

/// A processor holds what it owns, and nothing else where the shadow has no width.
pub fn owned_and_held()
    ensures within { (m : PlainMapping) (p : ℕ) (index : List ℤ) → IsMapping m → LiesIn m.bounds index
        → IsTrue (owns m p index) → IsTrue (is_held m p index) }
    ensures no_shadow { (m : PlainMapping) (p : ℕ) (index : List ℤ) → IsMapping m
        → All (λ width. width ≡ no_width) m.shadow → LiesIn m.bounds index → is_held m p index ≡ owns m p index }
{}

/// Each element is in some processor's part.
pub fn some_part()
    ensures { (m : PlainMapping) (index : List ℤ) → IsMapping m → LiesIn m.bounds index
        → (p : ℕ) × (p < product m.procs) × Contains (owned_part m p).indices index }
{}

/// The place of an element in a part is the number of elements before it that are in the part too.
pub fn local_places()
    ensures owned { (m : PlainMapping) (p k : ℕ) (e : List ℤ) → k < length (indices m.bounds)
        → IsTrue (owns m p (slice_index_or (indices m.bounds) k e))
        → slice_get (owned_part m p).indices (length (filter (owns m p) (take k (indices m.bounds))))
        ≡ Some (slice_index_or (indices m.bounds) k e) }
    ensures held { (m : PlainMapping) (p k : ℕ) (e : List ℤ) → k < length (indices m.bounds)
        → IsTrue (is_held m p (slice_index_or (indices m.bounds) k e))
        → slice_get (held_part m p).indices (length (filter (is_held m p) (take k (indices m.bounds))))
        ≡ Some (slice_index_or (indices m.bounds) k e) }
{}

/// A part is made of the subscripts of each dimension in one way, and an index stands in it at the sum over the dimensions
/// of the place of its subscript times the counts of the dimensions before; so it does in the whole bounds.
pub fn places()
    ensures one_way { (part : Part) (sides others : List (List ℤ)) → IsMadeOf part sides → IsMadeOf part others
        → sides ≡ others }
    ensures part { (part : Part) (sides : List (List ℤ)) (index : List ℤ) (ranks : List ℕ) → IsMadeOf part sides
        → AreRanks sides index ranks → slice_get part.indices (place_of (map length sides) ranks) ≡ Some index }
    ensures whole { (bounds : List Run) (index : List ℤ) → LiesIn bounds index
        → slice_get (indices bounds) (place_of (map extent bounds) (ranks_in bounds index)) ≡ Some index }
{}

/// Where the extents of two arrays agree under a permutation, each element of the one corresponds to exactly one element of
/// the other, both ways.
pub fn correspondence()
    ensures corresponds { (from to : List Run) (perm : List ℕ) (i : List ℤ) → IsPerm perm → length i ≡ length perm
        → Corresponds from to perm (corresponding from to perm i) i }
    ensures one_before { (from to : List Run) (perm : List ℕ) (j i : List ℤ) → IsPerm perm
        → Corresponds from to perm j i → j ≡ corresponding from to perm i }
    ensures within { (from to : List Run) (perm : List ℕ) (i : List ℤ) → IsPerm perm → ExtentsAgree from to perm
        → LiesIn to i → LiesIn from (corresponding from to perm i) }
    ensures received { (from to : List Run) (perm : List ℕ) (j : List ℤ) → IsPerm perm → ExtentsAgree from to perm
        → LiesIn from j → (i : List ℤ) × LiesIn to i × Corresponds from to perm j i }
    ensures one_received { (from to : List Run) (perm : List ℕ) (j i k : List ℤ)
        → Corresponds from to perm j i → Corresponds from to perm j k → i ≡ k }
{}

/// Mappings that nobody can tell apart have the same parts, and each element has the same owners and sender.
pub fn alike()
    ensures owned { (m w : PlainMapping) (p : ℕ) → AreAlike m w → p < product m.procs → owned_part m p ≡ owned_part w p }
    ensures held { (m w : PlainMapping) (p : ℕ) → AreAlike m w → p < product m.procs → held_part m p ≡ held_part w p }
    ensures owners { (m w : PlainMapping) (index : List ℤ) → AreAlike m w → LiesIn m.bounds index
        → owners m index ≡ owners w index }
    ensures sender { (m w : PlainMapping) (index : List ℤ) → AreAlike m w → LiesIn m.bounds index
        → sender m index ≡ sender w index }
{
    element_order();
}
