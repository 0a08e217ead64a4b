//! A list of what may be there at each place.

ghost use Rattle.std.specs.Prelude.{◌≡◌, option_copied};
ghost use Rattle.hpf_map.specs.Paired.{at_place};

/// What stands at a place, if anything does.
pub(crate) fn at_place<T>(list: &[Option<T>], place: usize) -> Option<&T>
    ensures { option_copied result ≡ at_place place list.now }
{
    match list.get(place) {
        Some(Some(item)) => Some(item),
        _ => None,
    }
}
