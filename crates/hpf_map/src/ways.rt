//! The way of each name.

ghost use Rattle.std.specs.Prelude.{◌≡◌, ◌++◌, length, map, fold, OnOk, IfOk};
ghost use Rattle.hpf_syntax.specs.Plain.{item_tree};
ghost use Rattle.hpf_map.specs.Declarations.{threaded};
ghost use Rattle.hpf_map.specs.Found.{least_with};
ghost use Rattle.hpf_map.specs.Ways.{way_at, walk_end, has_unmapped_base, ways_after, mapped_breaches, first_use, ways_of, mapped_twice_breaches, first_uses};

use crate::breaches::Breaches;
use crate::constraint::Constraint;
use crate::names::Names;
use crate::uses_that_map::uses_in;
use crate::walk::Walk;
use crate::way::{Use, Way, way_at};
use hpf_syntax::Item;
use std::alloc::{AllocError, Global};
use std::marker::Model;

/// The ways of all names, and the ends of the walks by them. It is seen as the list of the ways.
#[derive(Drop)]
pub(crate) struct Ways {
    ways: Vec<Way>,
    ends: Walk,
}

impl Model for Ways {
    ghost use Rattle.std.specs.Prelude.{List};
    ghost use Rattle.hpf_map.specs.declared.way.Way.{Way};

    ghost Value = { List Way };

    ghost use Rattle.hpf_map.specs.Ends.{HasEnds};

    ghost view = { λ w. w.ways.items };

    ghost invariant = { λ w. HasEnds w.ways.items w.ends };
}

impl Ways {
    /// These ways.
    pub(crate) fn new(alloc: Global, ways: Vec<Way>) -> Result<Ways, AllocError>
        ensures { IfOk result (λ w. w ≡ ways.items) }
    {
        let ends = Walk::to_the_end(alloc, ways.as_slice())?;
        Ok(Ways { ways, ends })
    }

    /// How many names there are.
    pub(crate) fn len(&self) -> usize
        ensures { result ≡ length self.now }
    {
        self.ways.len()
    }

    /// The way of the name at this place. Nothing maps a name that isn't there.
    pub(crate) fn way(&self, name: usize) -> Way
        ensures { result ≡ way_at self.now name }
    {
        way_at(self.ways.as_slice(), name)
    }

    /// The end of the walk from the name at this place. It is the ultimate base where no way leads on from it, and a
    /// name on a cycle otherwise.
    pub(crate) fn end(&self, name: usize) -> usize
        ensures { result ≡ walk_end self.now name }
    {
        self.ends.target(name)
    }

    /// Whether a name has an ultimate base that no directive maps.
    pub(crate) fn has_unmapped_base(&self, name: usize) -> bool
        ensures { result ≡ has_unmapped_base self.now name }
    {
        self.way(self.end(name)).is_unmapped()
    }
}

/// Maps a name. The first use that does so counts, and any other is a breach.
#[tactic(auto, using(crate::proofs::FoundLemmas::least_with_laws), unfolding(crate::specs::Ways::ways_after))]
fn map_name(
    ways: &mut Vec<Way>,
    used: &Use,
    first: &mut Vec<Use>,
    breaches: &mut Breaches,
) -> Result<(), AllocError>
    ensures ways { OnOk result (ways.new.items ≡ ways_after ways.old.items used.now) }
    ensures first { OnOk result (first.new.items
        ≡ first.old.items ++ first_use ways.old.items used.now) }
    ensures breaches { OnOk result (breaches.new
        ≡ least_with breaches.old (mapped_breaches ways.old.items used.now)) }
{
    if !way_at(ways.as_slice(), used.name).is_unmapped() {
        breaches.note(Constraint::MappedTwice, used.at);
        return Ok(());
    }
    if used.name < ways.len() {
        ways[used.name] = used.way;
    }
    first.push(*used)?;
    Ok(())
}

/// Maps names, one after another.
#[tactic(auto, using(crate::proofs::FoundLemmas::least_with_laws))]
fn map_names(
    ways: &mut Vec<Way>,
    uses: &[Use],
    first: &mut Vec<Use>,
    breaches: &mut Breaches,
) -> Result<(), AllocError>
    ensures ways { OnOk result (ways.new.items ≡ fold ways_after ways.old.items uses.now) }
    ensures first { OnOk result (first.new.items
        ≡ first.old.items ++ threaded ways_after first_use ways.old.items uses.now) }
    ensures breaches { OnOk result (breaches.new
        ≡ least_with breaches.old (threaded ways_after mapped_breaches ways.old.items uses.now)) }
{
    for used in uses {
        map_name(ways, used, first, breaches)?;
    }
    Ok(())
}

/// How statements map names: the way of each name, and the uses that count.
#[derive(Drop)]
pub(crate) struct Mapped {
    pub ways: Ways,
    pub first: Vec<Use>,
}

/// How these statements map the names. A name that is mapped again is a breach.
#[tactic(auto, unfolding(crate::specs::Ways::ways_of, crate::specs::Ways::first_uses, crate::specs::Ways::mapped_twice_breaches))]
pub(crate) fn read_ways(
    alloc: Global,
    names: &Names,
    items: &[Item],
    breaches: &mut Breaches,
) -> Result<Mapped, AllocError>
    ensures ways { IfOk result (λ m. m.ways ≡ ways_of names.now (map item_tree items.now)) }
    ensures first { IfOk result (λ m. m.first.items ≡ first_uses names.now (map item_tree items.now)) }
    ensures breaches { OnOk result (breaches.new
        ≡ least_with breaches.old (mapped_twice_breaches names.now (map item_tree items.now))) }
{
    let uses = uses_in(alloc, names, items)?;
    let mut ways = vec![in alloc; Way::Unmapped; names.as_slice().len()]?;
    let mut first = Vec::new(alloc);
    map_names(&mut ways, uses.as_slice(), &mut first, breaches)?;
    Ok(Mapped {
        ways: Ways::new(alloc, ways)?,
        first,
    })
}
