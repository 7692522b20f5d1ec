//! The text of the layout of a chosen cut, with all vertices of its arcs.

ghost use Rattle.std.specs.Prelude.{◌≡◌, ◌<◌, ◌+◌, ◌++◌, Some, length, map, option_copied, IfOk, OnOk};
ghost use Rattle.std.specs.List.{flat_map, range_with_len, All};
ghost use Rattle.def_cuttext.specs.LayoutText.{break_line, layout_head, layout_text as laid_text};
ghost use Rattle.def_cuttext.specs.LayoutText.{named_line, place_in_file, whole_arc_line};
ghost use Rattle.def_mesh.specs.Darts.{darts, from_of};
ghost use Rattle.def_mesh.specs.Kinds.{kind_of};
ghost use Rattle.def_mesh.specs.Vertices.{all_vertices};
ghost use Rattle.def_patches.specs.Chosen.{AreKeptMarks};
ghost use Rattle.def_report.specs.GraphText.{numbers_text, seed_line};
ghost use Rattle.qm_report.specs.Words.{word_of};

use crate::Memory;
use crate::graph::{push_counts, push_vertex};
use crate::lines::{push_line, push_numbers};
use crate::parts::push_patches;
use def_io::LINE_FEED;
use def_layout::TArc;
use def_mesh::Kind;
use def_patches::{Keep, Patches};
use qm_feature::breaks;
use qm_fit::{keep_word, patches_word};
use qm_marktext::is_marked;
use qm_print::push_spaced;
use qm_sing::sources;
use qm_stages::CutMesh;
use std::alloc::Global;

/// The text of a mesh with the layout of the cut that is chosen so, where these marked edges are kept. Vertices have
/// the numbers of the file. Linear in the darts and in the text.
pub fn layout_text(
    alloc: Global,
    keep: Keep,
    patches: Patches,
    cut: &CutMesh,
    kept: Option<&[bool]>,
) -> Result<Vec<u8>, Memory>
    requires { AreKeptMarks cut.now.soup.faces (option_copied kept) }
    ensures { IfOk result (λ text. text.items
        ≡ laid_text keep patches cut.now.soup (option_copied kept.entry) cut.now.layout) }
{
    let sources = sources(alloc, cut.mesh())?;
    let mut text = Vec::new(alloc);
    push_head(&mut text, keep, patches)?;
    push_counts(alloc, &mut text, cut.mesh(), sources.components)?;
    push_named(&mut text, cut, &sources.kinds)?;
    push_seeds(&mut text, cut, &sources.seeds)?;
    push_breaks(alloc, &mut text, cut, kept)?;
    push_arcs(&mut text, cut, kept)?;
    push_patches(&mut text, cut.layout())?;
    Ok(text)
}

/// The head line.
fn push_head(text: &mut Vec<u8>, keep: Keep, patches: Patches) -> Result<(), Memory>
    ensures { OnOk result (text.new.items ≡ text.old.items ++ layout_head keep patches) }
{
    text.extend_from_slice(b"quadq layout 1 keep ")?;
    text.extend_from_slice(keep_word(keep).as_bytes())?;
    text.extend_from_slice(b" patches ")?;
    text.extend_from_slice(patches_word(patches).as_bytes())?;
    text.push(LINE_FEED)?;
    Ok(())
}

/// How many `v` lines stand before that of a vertex.
fn place_in_file(names: &[u32], vertex: u32) -> u32
    ensures { result ≡ place_in_file names.now vertex }
{
    if (vertex as usize) < names.len() {
        names[vertex as usize].saturating_sub(1)
    } else {
        0
    }
}

/// The irregular vertices, with how many faces there are at each.
#[tactic(auto, using(crate::proofs::Layouts::place_low))]
fn push_named(text: &mut Vec<u8>, cut: &CutMesh, kinds: &[Kind]) -> Result<(), Memory>
    requires { kinds.now ≡ map (kind_of cut.now.soup.faces) (all_vertices cut.now.soup.faces) }
    ensures { OnOk result (text.new.items
        ≡ text.old.items ++ flat_map (named_line cut.now.soup) (all_vertices cut.now.soup.faces)) }
{
    let mesh = cut.mesh();
    for v in 0..mesh.vertices() {
        let place = place_in_file(cut.names(), v);
        push_vertex(text, kinds[v as usize], place, mesh.faces_at(v))?;
    }
    Ok(())
}

/// The seeds of the rings.
fn push_seeds(text: &mut Vec<u8>, cut: &CutMesh, seeds: &[u32]) -> Result<(), Memory>
    ensures { OnOk result (text.new.items
        ≡ text.old.items ++ flat_map (λ v. seed_line (place_in_file cut.now.soup.names v)) seeds.now) }
{
    let names = cut.names();
    for seed in seeds {
        push_line(text, b"seed", &[u64::from(place_in_file(names, *seed)) + 1])?;
    }
    Ok(())
}

/// The vertices where marked lines break, where marks are kept.
fn push_breaks(
    alloc: Global,
    text: &mut Vec<u8>,
    cut: &CutMesh,
    kept: Option<&[bool]>,
) -> Result<(), Memory>
    requires { AreKeptMarks cut.now.soup.faces (option_copied kept) }
    ensures { OnOk result (text.new.items ≡ text.old.items
        ++ flat_map (break_line cut.now.soup (option_copied kept.entry)) (all_vertices cut.now.soup.faces)) }
{
    match kept {
        Some(marks) => push_broken(alloc, text, cut, marks),
        None => Ok(()),
    }
}

/// The vertices where the lines of these marks break.
#[tactic(auto, using(crate::proofs::Layouts::place_low))]
fn push_broken(
    alloc: Global,
    text: &mut Vec<u8>,
    cut: &CutMesh,
    marks: &[bool],
) -> Result<(), Memory>
    requires { length marks.now ≡ darts cut.now.soup.faces }
    ensures { OnOk result (text.new.items ≡ text.old.items
        ++ flat_map (break_line cut.now.soup (Some marks.now)) (all_vertices cut.now.soup.faces)) }
{
    let mesh = cut.mesh();
    let names = cut.names();
    let broken = breaks(alloc, mesh, marks)?;
    for v in 0..mesh.vertices() {
        if broken[v as usize] {
            push_line(text, b"break", &[u64::from(place_in_file(names, v)) + 1])?;
        }
    }
    Ok(())
}

/// The arcs, with their lengths and all their vertices.
#[tactic(auto, using(crate::proofs::Texts::piece_behind))]
fn push_arcs(text: &mut Vec<u8>, cut: &CutMesh, kept: Option<&[bool]>) -> Result<(), Memory>
    ensures { OnOk result (text.new.items ≡ text.old.items
        ++ flat_map (whole_arc_line cut.now.soup (option_copied kept.entry) cut.now.layout)
        (range_with_len 0 (length cut.now.layout.arcs))) }
{
    for a in 0..cut.layout().arcs.len() {
        push_arc(text, cut, kept, a)?;
    }
    Ok(())
}

/// An arc: its word, its number, its length and its vertices.
fn push_arc(
    text: &mut Vec<u8>,
    cut: &CutMesh,
    kept: Option<&[bool]>,
    a: usize,
) -> Result<(), Memory>
    requires { a < length cut.now.layout.arcs }
    ensures { OnOk result (text.new.items ≡ text.old.items
        ++ whole_arc_line cut.now.soup (option_copied kept.entry) cut.now.layout a) }
{
    let t = cut.layout();
    let arc = &t.arcs[a];
    let word = arc_word(kept, arc);
    text.extend_from_slice(word)?;
    push_numbers(text, &[a as u64 + 1, arc.darts.len() as u64])?;
    push_along(text, cut, &arc.darts)?;
    let last = place_in_file(cut.names(), t.nodes[arc.last as usize]);
    push_spaced(text, u64::from(last) + 1)?;
    text.push(LINE_FEED)?;
    Ok(())
}

/// The word of an arc: whether its edges are marked.
fn arc_word(kept: Option<&[bool]>, arc: &TArc) -> &'static [u8]
    ensures { result.now ≡ word_of (option_copied kept.entry) arc.now }
{
    match kept {
        Some(marks) if is_marked(marks, arc) => b"marked",
        _ => b"arc",
    }
}

/// The vertices from which darts run, each after a space.
fn push_along(text: &mut Vec<u8>, cut: &CutMesh, along: &[u32]) -> Result<(), Memory>
    requires { All (λ d. d < darts cut.now.soup.faces) along.now }
    ensures { OnOk result (text.new.items ≡ text.old.items
        ++ numbers_text (map (λ d. place_in_file cut.now.soup.names (from_of cut.now.soup.faces d) + 1) along.now)) }
{
    let mesh = cut.mesh();
    let names = cut.names();
    for dart in along {
        push_spaced(text, u64::from(place_in_file(names, mesh.from(*dart))) + 1)?;
    }
    Ok(())
}
