//! How a name is mapped.

ghost use Rattle.std.specs.Prelude.{◌≡◌};
ghost use Rattle.hpf_map.specs.Ways.{way_at};

use hpf_syntax::At;

/// How the first directive that maps a name does so. Statements count from 0, and so do the places of names.
#[derive(Clone, Copy, Debug, PartialEq, Eq)]
pub(crate) enum Way {
    /// No directive maps it.
    Unmapped,
    /// This statement distributes it.
    Distributed(usize),
    /// This statement aligns it with the name at the place `base`, which is none where the base's name has a breach.
    Aligned {
        statement: usize,
        base: Option<usize>,
    },
}

impl Way {
    ghost use Rattle.hpf_map.specs.Ways.{is_unmapped, leads_on, step_from};

    /// Whether no directive maps the name.
    pub(crate) fn is_unmapped(self) -> bool
        ensures { result ≡ is_unmapped self }
    {
        matches!(self, Way::Unmapped)
    }

    /// Whether it leads from the name to its base.
    pub(crate) fn leads_on(self) -> bool
        ensures { result ≡ leads_on self }
    {
        matches!(self, Way::Aligned { base: Some(_), .. })
    }

    /// Where one comes to by it from the name at this place: to the base, or nowhere else where it doesn't lead on.
    pub(crate) fn step_from(self, name: usize) -> usize
        ensures { result ≡ step_from name self }
    {
        match self {
            Way::Aligned {
                base: Some(base),
                ..
            } => base,
            _ => name,
        }
    }
}

/// A use of a name that maps it, at its place in the text. Names count from 0, in the order of their declarations.
#[derive(Clone, Copy)]
pub(crate) struct Use {
    pub name: usize,
    pub at: At,
    pub way: Way,
}

/// The way of the name at this place. Nothing maps a name that isn't there.
pub(crate) fn way_at(ways: &[Way], name: usize) -> Way
    ensures { result ≡ way_at ways.now name }
{
    match ways.get(name) {
        Some(way) => *way,
        None => Way::Unmapped,
    }
}
