//! Names that are found again without a search.
ghost use Rattle.std.specs.Prelude.{◌≡◌, ◌++◌, [], ◌∷◌, length, ℕ, List, OnOk};
ghost use Rattle.std.specs.HashMap.{get_by};
ghost use Rattle.std.specs.Str.{bytes_eq};
ghost use Rattle.query_typing.specs.NamePlaces.{IsIndexOf, place_more};

use prefsql_values::Memory;
use std::collections::HashMap;

/// The first place at which a name stands, and whether it stands nowhere else.
#[derive(Clone, Copy, Debug)]
pub struct NamePlace {
    pub first: usize,
    pub is_single: bool,
}

/// Adds the name that stands at this place, which is behind all that the index has.
pub(crate) fn add_name<'t>(
    index: &mut HashMap<&'t str, NamePlace>,
    name: &'t str,
    place: usize,
) -> Result<(), Memory>
    ensures { OnOk result ((names : List (List ℕ)) → IsIndexOf names index.old
        → place ≡ length names → IsIndexOf (names ++ name.now ∷ []) index.new) }
{
    let known = find_name(index, name);
    index.insert(name, place_more(known, place))?;
    Ok(())
}

/// Where the name stands.
pub(crate) fn find_name(index: &HashMap<&str, NamePlace>, name: &str) -> Option<NamePlace>
    ensures { result ≡ get_by (λ k. bytes_eq name.now k.now) index.now }
{
    index.get(name).copied()
}

/// Where a name stands that stands at this place too.
fn place_more(known: Option<NamePlace>, place: usize) -> NamePlace
    ensures { result ≡ place_more known place }
{
    match known {
        None => NamePlace {
            first: place,
            is_single: true,
        },
        Some(known) => NamePlace {
            first: known.first,
            is_single: false,
        },
    }
}
