//! Where each name of a type stands first.
ghost use Rattle.std.specs.Prelude.{◌≡◌, ◌↔◌, IsTrue, IfOk, map};
ghost use Rattle.std.specs.BTreeMap.{get_by_text};
ghost use Rattle.wave_wasm.specs.Borrowed.{texts};
ghost use Rattle.wave_wasm.specs.Names.{AreDistinct};
ghost use Rattle.wave_type.specs.Private.NameIndex.{AreFirstPlaces};

use std::alloc::{AllocError, Global};
use std::collections::BTreeMap;

// What has a name: a name alone, or a part after its name.
pub(crate) trait Named {
    ghost use Rattle.std.specs.Prelude.{◌≡◌, ℕ, List};

    ghost name_of: { Self → List ℕ };

    fn name(&self) -> &str
        ensures { result.now ≡ name_of self.now };
}

impl Named for String {
    ghost use Rattle.std.specs.Prelude.{string_bytes};

    ghost name_of = { string_bytes };

    fn name(&self) -> &str {
        self.as_str()
    }
}

impl<A> Named for (String, A) {
    ghost use Rattle.std.specs.Prelude.{string_bytes};

    ghost name_of = { λ p. string_bytes p.0 };

    fn name(&self) -> &str {
        self.0.as_str()
    }
}

// The names as texts, in their order.
pub(crate) fn borrowed_names<N: Named>(
    alloc: Global,
    items: &Vec<N>,
) -> Result<Vec<&str>, AllocError>
    ensures { IfOk result (λ v. texts v.items ≡ map N.name_of items.now.items) }
{
    let mut names = Vec::with_capacity(alloc, items.len())?;
    for item in items {
        names.push(item.name())?;
    }
    Ok(names)
}

// Where each of the names stands first.
pub(super) fn first_places<N: Named>(
    alloc: Global,
    items: &Vec<N>,
) -> Result<BTreeMap<String, usize>, AllocError>
    ensures { IfOk result (λ places. AreFirstPlaces places (map N.name_of items.now.items)) }
{
    let mut places = BTreeMap::new(alloc);
    for i in 0..items.len() {
        let name = items[i].name();
        if first_place(&places, name).is_none() {
            places.insert(String::from_str(alloc, name)?, i)?;
        }
    }
    Ok(places)
}

// Where the name stands first, if it stands there.
pub(super) fn first_place(places: &BTreeMap<String, usize>, name: &str) -> Option<usize>
    ensures { result ≡ get_by_text places.now name.now }
{
    places.get(name).copied()
}

// Whether no name stands twice, seen without a walk over the names: as many names are found as
// there are.
pub(super) fn are_distinct<N: Named>(items: &Vec<N>, places: &BTreeMap<String, usize>) -> bool
    requires { AreFirstPlaces places.now (map N.name_of items.now.items) }
    ensures { IsTrue result ↔ AreDistinct (map N.name_of items.now.items) }
{
    items.len() == places.len()
}
