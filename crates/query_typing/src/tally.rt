//! How many leaves have a quality on a column.
ghost use Rattle.std.specs.Prelude.{◌≡◌, ◌++◌, [], ◌∷◌, List, IfOk, OnOk};
ghost use Rattle.std.specs.HashMap.{get};
ghost use Rattle.query_typing.specs.Leaves.{has_wanted, wanted_count};
ghost use Rattle.query_typing.specs.Tallies.{AreTallied, same_key, tally, tally_in, tally_of, tally_with};
ghost use Rattle.query_typing.specs.declared.quality.LeafSite.{LeafSite};
ghost use Rattle.query_typing.specs.declared.quality.Wanted.{Wanted};

use crate::quality::{LeafSite, Wanted, has_wanted};
use prefsql_tables::ColumnPlace;
use prefsql_values::Memory;
use std::alloc::Global;
use std::collections::HashMap;

/// How many there are, as far as it matters.
#[derive(Clone, Copy, Debug)]
pub enum Tally {
    Nothing,
    One,
    Several,
}

impl Tally {
    /// With one more, or as it is.
    fn with(self, more: bool) -> Tally
        ensures { result ≡ tally_with more self }
    {
        if !more {
            return self;
        }
        match self {
            Tally::Nothing => Tally::One,
            Tally::One | Tally::Several => Tally::Several,
        }
    }
}

/// How many leaves on one column have each quality.
#[derive(Clone, Copy, Debug)]
pub struct QualityTally {
    pub level: Tally,
    pub distance: Tally,
    pub either: Tally,
}

impl QualityTally {
    /// How many have this one.
    fn of(self, wanted: Wanted) -> Tally
        ensures { result ≡ tally_of wanted self }
    {
        match wanted {
            Wanted::Level => self.level,
            Wanted::Distance => self.distance,
            Wanted::Either => self.either,
        }
    }
}

/// How many of these leaves have each quality, column by column.
pub(crate) fn tallies(
    alloc: Global,
    leaves: &[LeafSite],
) -> Result<HashMap<(u32, u32), QualityTally>, Memory>
    ensures { IfOk result (AreTallied leaves.now) }
{
    let mut tallies = HashMap::new(alloc);
    for leaf in leaves {
        add_leaf(&mut tallies, leaf)?;
    }
    Ok(tallies)
}

/// Counts one leaf more.
fn add_leaf(tallies: &mut HashMap<(u32, u32), QualityTally>, leaf: &LeafSite) -> Result<(), Memory>
    ensures { OnOk result ((leaves : List LeafSite) → AreTallied leaves tallies.old
        → AreTallied (leaves ++ leaf.now ∷ []) tallies.new) }
{
    let Some(place) = leaf.place else {
        return Ok(());
    };
    let key = (place.table, place.column);
    let known = tallies.get(&key).copied();
    tallies.insert(key, with_leaf(known, leaf))?;
    Ok(())
}

/// Those of a column with one leaf more on it.
fn with_leaf(known: Option<QualityTally>, leaf: &LeafSite) -> QualityTally
    ensures { (wanted : Wanted)
        → tally_of wanted result ≡ tally_with (has_wanted wanted leaf.now) (tally_in wanted known) }
{
    QualityTally {
        level: told(known, Wanted::Level).with(has_wanted(leaf, Wanted::Level)),
        distance: told(known, Wanted::Distance).with(has_wanted(leaf, Wanted::Distance)),
        either: told(known, Wanted::Either).with(has_wanted(leaf, Wanted::Either)),
    }
}

/// How many leaves have the quality on the column.
pub(crate) fn find_tally(
    tallies: &HashMap<(u32, u32), QualityTally>,
    wanted: Wanted,
    place: ColumnPlace,
) -> Tally
    ensures { result ≡ tally_in wanted (get same_key tallies.now (place.table, place.column)) }
{
    told(tallies.get(&(place.table, place.column)).copied(), wanted)
}

fn told(known: Option<QualityTally>, wanted: Wanted) -> Tally
    ensures { result ≡ tally_in wanted known }
{
    match known {
        None => Tally::Nothing,
        Some(known) => known.of(wanted),
    }
}
