//! Why a text that was judged is refused.

ghost use Rattle.def_io.specs.Bytes.{Bytes};
ghost use Rattle.def_run.specs.CheckFails.{IsPairFail};
ghost use Rattle.def_run.specs.MapFails.{IsMapFail};
ghost use Rattle.qm_top.specs.Checking.{IsNoPairFor, IsPlaced};
ghost use Rattle.qm_top.specs.Mapping.{IsNoMapFor};

use crate::named::named_place;
use crate::refusal::Refusal;
use def_remesh::LayoutFail;
use def_text::SoupFail;
use qm_check::CheckFail;

/// The refusal of a text that is no pair, or has no map.
pub(crate) fn judged_refusal(fail: CheckFail) -> Refusal
    requires { IsPlaced fail }
    ensures pair { (bytes : Bytes) → IsPairFail bytes fail → IsNoPairFor bytes result }
    ensures mapped { (bytes : Bytes) → IsMapFail bytes fail → IsNoMapFor bytes result }
{
    match fail {
        CheckFail::NotAccepted { why } => Refusal::NotAccepted(why),
        CheckFail::Old { fail } => Refusal::Soup(SoupFail::Obj(fail)),
        CheckFail::NotManifold { place, soup } => Refusal::NotManifold(named_place(place, soup)),
        CheckFail::Marks { fail } => Refusal::Marks(fail),
        CheckFail::Tangled { count } => Refusal::Layout(LayoutFail::Tangled { count }),
        CheckFail::Far { sum } => Refusal::Far(sum),
        CheckFail::Memory => Refusal::Memory,
    }
}
