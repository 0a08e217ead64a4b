//! What holds of all names that statements declare.

ghost use Rattle.std.specs.Prelude.{List};
ghost use Rattle.hpf_map.specs.Layers.{names_of};
ghost use Rattle.hpf_map.specs.Sound.{AreSoundNames};
ghost use Rattle.hpf_syntax.specs.Plain.{ItemTree};

/// Constants are in range, and shapes are as their kinds allow.
pub(crate) fn sound_names()
    ensures { (items : List ItemTree) → AreSoundNames (names_of items) }
{}
