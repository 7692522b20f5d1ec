//! A place where faces fail to be a manifold, with the numbers that the file gave the vertices.

ghost use Rattle.std.specs.Prelude.{◌≡◌};
ghost use Rattle.def_mesh.specs.Faults.{IsFirstFault};
ghost use Rattle.qm_top.specs.Named.{IsNamed};

use def_mesh::Place;
use def_text::Soup;
use qm_cut::are_quads;

/// A place whose vertices all have numbers in the file.
#[derive(Debug, Drop)]
pub(crate) struct NamedPlace {
    pub(crate) place: Place,
    pub(crate) names: Vec<u32>,
    ghost named: { IsNamed names.items place },
}

/// The first place where the faces of a soup fail to be a manifold, with the soup's numbers.
pub(crate) fn named_place(place: Place, soup: Soup) -> NamedPlace
    requires fault { IsFirstFault soup.faces place }
    ensures place { result.place ≡ place }
    ensures names { result.names.items ≡ soup.names }
{
    are_quads(&soup.faces);
    let Soup { names, .. } = soup;
    NamedPlace { place, names }
}
