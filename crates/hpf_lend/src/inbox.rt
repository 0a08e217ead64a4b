//! What an end receives over one ring.

ghost use Rattle.std.specs.Prelude.{◌≡◌, [], ◌∷◌, ◌++◌, IfSome, IfNone, false, ◌⊎◌};
ghost use Rattle.rtrb.specs.Ring.{received, known_items, SameConsumer};

use rtrb::Consumer;

/// Takes the next item that is known. Where none is, the ring is looked at, but not by an end that has just met the
/// other.
pub(crate) fn take_next<T>(inbox: &mut Consumer<T>, fresh: &mut bool) -> Option<T>
    ensures ring { SameConsumer inbox.old inbox.new }
    ensures taken { IfSome result (λ x. received inbox.new ≡ received inbox.old ++ x ∷ []) }
    ensures next { IfSome result (λ x. (known_items inbox.old ≡ x ∷ known_items inbox.new)
        ⊎ ((known_items inbox.old ≡ []) × (fresh.old ≡ false))) }
    ensures same { IfSome result (λ _. fresh.new ≡ fresh.old) }
    ensures none { IfNone result ((received inbox.new ≡ received inbox.old) × (known_items inbox.old ≡ [])
        × (known_items inbox.new ≡ []) × (fresh.new ≡ false)) }
{
    if inbox.cached_slots() > 0 {
        return Some(inbox.pop_known());
    }
    if *fresh {
        *fresh = false;
        return None;
    }
    inbox.pop().ok()
}
