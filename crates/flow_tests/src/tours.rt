//! Keys of which the least comes first, and equal ones by chance.

use qm_tour::Tour;
use std::test::Fail;

/// Of equal keys not the same one comes for ever: a search that took them in a fixed order would run over a whole
/// plateau of equal costs.
#[test]
fn equal_keys_take_turns(rt: HostRuntime) -> Result<(), Fail> {
    let mut tour = Tour::new(rt.alloc(), 2)?;
    let first = tour.least_leaf();
    let mut changes = 0;
    for key in 0..20_000 {
        tour.set(0, key);
        tour.set(1, key);
        if tour.least_leaf() != first {
            changes = 1;
        }
    }
    assert_eq!(rt; changes, 1);
    Ok(())
}
