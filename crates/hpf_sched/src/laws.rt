//! Laws of routes, each the contract of a function that does nothing.

ghost use Rattle.std.specs.Prelude.{◌≡◌, ◌<◌, ℕ, ℤ, pos, List, length, map, slice_get, slice_index_or, Some, Contains};
ghost use Rattle.std.specs.List.{sum_by};
ghost use Rattle.hpf_own.specs.Alike.{AreAlike};
ghost use Rattle.hpf_own.specs.Owners.{numbers};
ghost use Rattle.hpf_own.specs.Space.{product};
ghost use Rattle.hpf_own.specs.Mapping.{PlainMapping};
ghost use Rattle.hpf_own.specs.Held.{owned_part, held_part};
ghost use Rattle.hpf_sched.specs.declared.step.Move.{Move};
ghost use Rattle.hpf_sched.specs.declared.step.Step.{Step};
ghost use Rattle.hpf_sched.specs.Moves.{AreRuns, runs};
ghost use Rattle.hpf_sched.specs.Transfer.{IsHop, source_of, transfer};

/// Moves have runs, which list them in order, and no other list of steps is theirs.
pub fn whole_steps()
    ensures runs { (list : List Move) → AreRuns list (runs list) }
    ensures only { (list : List Move) (steps : List Step) → AreRuns list steps → steps ≡ runs list }
{}

/// Over all senders each place of what a processor holds is entered, and once.
pub fn each_place_once()
    ensures some { (from to : PlainMapping) (perm : List ℕ) (q place : ℕ) → IsHop from to perm
        → place < length (held_part to q).indices
        → (p : ℕ) × (p < product from.procs) × (move : Move) × Contains (transfer from to perm p q) move × (move.to ≡ place) }
    ensures once { (from to : PlainMapping) (perm : List ℕ) (q p r i j : ℕ) (first second : Move) → IsHop from to perm
        → p < product from.procs → r < product from.procs
        → slice_get (transfer from to perm p q) i ≡ Some first → slice_get (transfer from to perm r q) j ≡ Some second
        → first.to ≡ second.to → (p ≡ r) × (i ≡ j) }
{
    hpf_own::laws::element_order();
    hpf_own::laws::correspondence();
    hpf_own::laws::one_sender();
    hpf_own::laws::places();
    hpf_own::laws::products();
}

/// From all senders together comes as much as a processor holds.
pub fn all_arrives()
    ensures { (from to : PlainMapping) (perm : List ℕ) (q : ℕ) → IsHop from to perm
        → sum_by (λ p. length (transfer from to perm p q)) (numbers from.procs) ≡ length (held_part to q).indices }
{
    hpf_own::laws::element_order();
    hpf_own::laws::correspondence();
    hpf_own::laws::one_sender();
    hpf_own::laws::places();
    hpf_own::laws::products();
}

/// Each move enters the place of an element that is held, and leaves the place of its source among what the sender owns.
pub fn from_sources()
    ensures { (from to : PlainMapping) (perm : List ℕ) (p q : ℕ) (move : Move) → IsHop from to perm
        → p < product from.procs → Contains (transfer from to perm p q) move
        → (index : List ℤ) × (slice_get (held_part to q).indices move.to ≡ Some index)
        × (slice_get (owned_part from p).indices move.from ≡ Some (source_of from to perm index)) }
{
    hpf_own::laws::element_order();
    hpf_own::laws::correspondence();
    hpf_own::laws::one_sender();
    hpf_own::laws::places();
    hpf_own::laws::products();
}

/// The values that go by all routes to a processor, put at their places, are its part of what enters, whatever the values
/// are: the value of an element is that of its source.
pub fn parts_arrive()
    ensures carries { (from to : PlainMapping) (perm : List ℕ) (p q : ℕ) (value : List ℤ → ℤ) (move : Move) → IsHop from to perm
        → p < product from.procs → Contains (transfer from to perm p q) move
        → slice_get (map value (owned_part from p).indices) move.from
        ≡ slice_get (map (λ index. value (source_of from to perm index)) (held_part to q).indices) move.to }
    ensures fills { (from to : PlainMapping) (perm : List ℕ) (q : ℕ) (value : List ℤ → ℤ) (part : List ℤ) → IsHop from to perm
        → length part ≡ length (held_part to q).indices
        → ((p : ℕ) (move : Move) → p < product from.procs → Contains (transfer from to perm p q) move
        → slice_get part move.to ≡ slice_get (map value (owned_part from p).indices) move.from)
        → part ≡ map (λ index. value (source_of from to perm index)) (held_part to q).indices }
{
    hpf_own::laws::element_order();
    hpf_own::laws::correspondence();
    hpf_own::laws::one_sender();
    hpf_own::laws::places();
    hpf_own::laws::products();
}

/// What goes between mappings is what goes between others that nobody can tell from them.
pub fn alike()
    ensures { (from to other receiving : PlainMapping) (perm : List ℕ) (p q : ℕ) → IsHop from to perm
        → AreAlike from other → AreAlike to receiving → p < product from.procs → q < product to.procs
        → transfer from to perm p q ≡ transfer other receiving perm p q }
{
    hpf_own::laws::alike();
    hpf_own::laws::element_order();
    hpf_own::laws::correspondence();
    hpf_own::laws::one_sender();
    hpf_own::laws::places();
}
