//! The numbers of points.

ghost use Rattle.std.specs.Prelude.{◌≡◌, ◌<◌, ◌≤◌, ℕ, [], length, slice_index_or};
ghost use Rattle.def_math.specs.Counts.{count_below};
ghost use Rattle.def_layout.specs.Lengths.{wide, high};
ghost use Rattle.def_layout.specs.Layouts.{gluing_of, layout_of};
ghost use Rattle.def_written.specs.Numbers.{vertex_number};
ghost use Rattle.def_written.specs.Points.{arc_point, point, use_point};
ghost use Rattle.def_remesh.specs.NewPoints.{lengths_in};
ghost use Rattle.def_remesh.specs.Numberings.{sizes_on, tables_of};
ghost use Rattle.qm_stitch.specs.Lengthened.{gluing_in, lengths_by};
ghost use Rattle.qm_stitch.specs.Sizes.{long_by, point_on};

use crate::border::Border;
use crate::numbered::Numbered;
use crate::size::{last_of, size_at};
use def_layout::SideArc;
use qm_offsets::{side_of, spot_in, starts_on};

/// The number of the point at place k of an arc.
pub(crate) fn arc_number(numbered: &Numbered, arc: usize, k: u32) -> u32
    requires arc { arc < length numbered.now.t.now.arcs.items }
    requires upto { k ≤ lengths_by numbered.now arc }
    ensures { result ≡ vertex_number (gluing_in numbered.now) (lengths_by numbered.now)
        (arc_point (gluing_in numbered.now) (lengths_by numbered.now) arc k) }
{
    if k == 0 {
        return numbered.t.arcs[arc].first;
    }
    if k == numbered.tables.lengths[arc] {
        return numbered.t.arcs[arc].last;
    }
    numbered.tables.nodes + numbered.tables.along.begin[arc] + (k - 1)
}

/// The number of the point that lies so far after the beginning of an arc in use.
fn use_number(numbered: &Numbered, used: SideArc, offset: u32) -> u32
    requires arc { used.arc < length numbered.now.t.now.arcs.items }
    requires upto { offset ≤ lengths_by numbered.now used.arc }
    ensures { result ≡ vertex_number (gluing_in numbered.now) (lengths_by numbered.now)
        (use_point (gluing_in numbered.now) (lengths_by numbered.now) used offset) }
{
    let arc = used.arc as usize;
    if used.forward {
        arc_number(numbered, arc, offset)
    } else {
        arc_number(numbered, arc, numbered.tables.lengths[arc] - offset)
    }
}

/// The number of the point at a place of a side.
fn side_number(side: &Border, place: u32) -> u32
    requires { place ≤ count_below (sizes_on side.now.arcs.now (lengths_by side.now.numbered))
        (length side.now.arcs.now) }
    ensures { result ≡ vertex_number (gluing_in side.now.numbered) (lengths_by side.now.numbered)
        (point_on (gluing_in side.now.numbered) (lengths_by side.now.numbered) side.now.arcs.now place) }
{
    let at = spot_in(side.starts, place);
    use_number(&side.numbered, side.arcs[at], place - side.starts[at])
}

/// The number of the point at a place of a side of a patch.
fn border_number(numbered: &Numbered, patch: usize, side: usize, place: u32) -> u32
    requires patch { patch < length numbered.now.t.now.patches.items }
    requires side { side < 4 }
    requires upto { place ≤ long_by (tables_of numbered.now.tables.now.sides.items) patch side }
    ensures { result ≡ vertex_number (gluing_in numbered.now) (lengths_by numbered.now)
        (point_on (gluing_in numbered.now) (lengths_by numbered.now)
        (slice_index_or (slice_index_or (layout_of numbered.now.t.now).sides patch []) side []) place) }
{
    let starts = starts_on(&numbered.tables.sides, patch, side);
    let border = Border {
        numbered: *numbered,
        arcs: side_of(numbered.t, patch, side),
        starts,
    };
    side_number(&border, place)
}

impl Numbered<'_> {
    /// The number of grid point (i, j) of a patch. In constant time inside the patch, and logarithmic in the arcs of a
    /// side on that.
    #[tactic(auto, using(crate::proofs::Grids::starts_end))]
    pub fn point(&self, patch: usize, i: u32, j: u32) -> u32
        requires patch { patch < length self.now.t.now.patches.items }
        requires column { i ≤ wide (gluing_of (layout_of self.now.t.now))
            (lengths_in self.now.tables.now.lengths.items) patch }
        requires row { j ≤ high (gluing_of (layout_of self.now.t.now))
            (lengths_in self.now.tables.now.lengths.items) patch }
        ensures { result ≡ vertex_number (gluing_of (layout_of self.now.t.now))
            (lengths_in self.now.tables.now.lengths.items)
            (point (gluing_of (layout_of self.now.t.now)) (lengths_in self.now.tables.now.lengths.items) patch i j) }
    {
        let wide = size_at(self, patch, 0);
        let high = size_at(self, patch, 3);
        if j == 0 {
            return border_number(self, patch, 0, i);
        }
        if j == high {
            return border_number(self, patch, 2, wide - i);
        }
        if i == 0 {
            return border_number(self, patch, 3, high - j);
        }
        if i == wide {
            return border_number(self, patch, 1, j);
        }
        let nodes = self.tables.nodes + last_of(&self.tables.along.begin);
        nodes + self.tables.inside.begin[patch] + ((j - 1) * (wide - 1) + (i - 1))
    }
}
