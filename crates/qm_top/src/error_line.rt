//! The line that is said of an answer.

ghost use Rattle.std.specs.Prelude.{◌≡◌, ◌≤◌, ◌<◌, ◌+◌, ◌++◌, length, codes, decimal, slice_index};
ghost use Rattle.arrayvec.specs.ArrayString.{array_string_len};
ghost use Rattle.def_run.specs.ErrorLines.{corners_text, error_line, limit_text, place_text, reason_text};
ghost use Rattle.qm_top.specs.Named.{HasNames, IsNamed};

use crate::why_line::why_of;
use def_mesh::Place;
use def_run::Answer;
use def_text::Which;
use qm_print::{Line, line_of, numbered_line, push_integer, push_numbered};

/// The whole line of an answer, where `names` has the vertices' numbers in the file. It takes no memory.
pub(crate) fn error_line_of(answer: &Answer, names: &[u32]) -> Line
    requires { HasNames names.now answer.now }
    ensures { result.bytes ≡ error_line names.now answer.now }
{
    let reason = reason_of(answer, names);
    let mut line = Line::new();
    line.push_str("quadq: ");
    line.push_str(reason.as_str());
    line.push_str("\n");
    line
}

const USAGE: &str =
    "usage: quadq tidy | graph | refine --by K | remesh --scale P/Q --floor F --weight plain|length \
    | check | bench --size N | crease --scale P/Q --floor F --weight plain|length | size --edge D --floor F \
    | coarse --scale P/Q --floor F --weight plain|length | blocks --by K";

fn reason_of(answer: &Answer, names: &[u32]) -> Line
    requires { HasNames names.now answer.now }
    ensures text { result.bytes ≡ reason_text names.now answer.now }
    ensures short { array_string_len result ≤ 300 }
{
    match answer {
        Answer::Done => line_of(""),
        Answer::NotAccepted { why } => why_of(why),
        Answer::Usage => line_of(USAGE),
        Answer::Syntax { line } => numbered_line(
            "line ",
            u64::from(*line),
            ": not an OBJ line of this profile",
        ),
        Answer::NotQuad { line, corners } => corners_of(u64::from(*line), u64::from(*corners)),
        Answer::Range { line } => numbered_line("line ", u64::from(*line), ": number out of range"),
        Answer::Limit { which, line } => limit_of(*which, *line),
        Answer::NotManifold { place } => place_of(*place, names),
        Answer::NotEdge { line } => {
            numbered_line("line ", u64::from(*line), ": not an edge of the mesh")
        }
        Answer::Tangled { count } => numbered_line("tangled: ", *count, ""),
        Answer::TooFine { faces, .. } => too_fine_of(*faces),
        Answer::Doubled { u, v, .. } => doubled_of(*u, *v),
        Answer::ReadFault => line_of("read fault"),
        Answer::WriteFault => line_of("write fault"),
        Answer::Memory => line_of("out of memory"),
        Answer::Far { sum } => far_of(*sum),
    }
}

fn corners_of(line: u64, corners: u64) -> Line
    ensures text { result.bytes ≡ corners_text line corners }
    ensures short { array_string_len result ≤ 300 }
{
    let mut text = numbered_line("line ", line, ": face with ");
    push_numbered(&mut text, corners, " corners");
    text
}

/// So many faces. The number may be as wide as the product of two lengths.
fn too_fine_of(faces: u128) -> Line
    ensures text { result.bytes ≡ codes "too fine: " ++ decimal faces ++ codes " faces" }
    ensures short { array_string_len result ≤ 300 }
{
    let mut text = line_of("too fine: ");
    push_integer(&mut text, faces, " faces");
    text
}

/// The sum of the lengths that are wanted.
fn far_of(sum: u128) -> Line
    ensures text { result.bytes ≡ codes "far: " ++ decimal sum }
    ensures short { array_string_len result ≤ 300 }
{
    let mut text = line_of("far: ");
    push_integer(&mut text, sum, "");
    text
}

/// The ends of an edge, which count from 1.
fn doubled_of(u: u32, v: u32) -> Line
    ensures text { result.bytes ≡ codes "doubled edge: " ++ decimal (u + 1) ++ codes " " ++ decimal (v + 1) }
    ensures short { array_string_len result ≤ 300 }
{
    let mut text = numbered_line("doubled edge: ", u64::from(u) + 1, " ");
    push_numbered(&mut text, u64::from(v) + 1, "");
    text
}

fn limit_of(which: Which, line: u32) -> Line
    ensures text { result.bytes ≡ limit_text which line }
    ensures short { array_string_len result ≤ 300 }
{
    match which {
        Which::Bytes => line_of("limit: bytes"),
        Which::Line => numbered_line("line ", u64::from(line), ": limit: line"),
        Which::Vertices => numbered_line("line ", u64::from(line), ": limit: vertices"),
        Which::Faces => numbered_line("line ", u64::from(line), ": limit: faces"),
    }
}

fn place_of(place: Place, names: &[u32]) -> Line
    requires { IsNamed names.now place }
    ensures text { result.bytes ≡ place_text names.now place }
    ensures short { array_string_len result ≤ 300 }
{
    match place {
        Place::Repeated { face, vertex } => {
            let mut line = numbered_line("face ", u64::from(face) + 1, ": vertex ");
            push_numbered(&mut line, name_of(vertex, names), " repeated");
            line
        }
        Place::EdgeTwice {
            from,
            to,
            face1,
            face2,
        } => {
            let mut line = numbered_line("edge ", name_of(from, names), " ");
            push_numbered(&mut line, name_of(to, names), ": faces ");
            push_numbered(&mut line, u64::from(face1) + 1, " and ");
            push_numbered(&mut line, u64::from(face2) + 1, "");
            line
        }
        Place::TwoFans { vertex } => numbered_line("vertex ", name_of(vertex, names), ": two fans"),
    }
}

/// The number that the file gave the vertex.
fn name_of(vertex: u32, names: &[u32]) -> u64
    requires { vertex < length names.now }
    ensures { result ≡ slice_index names.now vertex }
{
    u64::from(names[vertex as usize])
}
