//! Tests of meshes, of the networks of edge lengths, of the wishes of lines, and of new meshes at given lengths, on
//! meshes that are worked out by hand.
#![tactic(auto)]

#[cfg(test)]
mod cuts;
#[cfg(test)]
mod layouts;
#[cfg(test)]
mod lengths;
#[cfg(test)]
mod measures;
#[cfg(test)]
mod meshes;
#[cfg(test)]
mod new_meshes;
#[cfg(test)]
mod rising;
#[cfg(test)]
mod spaced;
#[cfg(test)]
mod stitched;
#[cfg(test)]
mod wishes;
