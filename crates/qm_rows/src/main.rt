//! Runs the worked rows: each file `NAME.case` beside it, and those that are made here since they are large.
#![tactic(auto)]

mod case;
mod made;

use case::{Case, passes};
use made::{grid_row, longest_line_row, tangled_row, too_long_line_row};
use std::process::ExitCode;
use std::{fs, io};

fn main(rt: HostRuntime) -> io::Result<ExitCode> {
    let mut are_right = true;
    for name in &case_files(&rt)? {
        let case = Case::read(rt.alloc(), &fs::read(&rt, name.as_str())?)?;
        are_right = tells(&rt, name.as_str().trim_end_matches(".case"), case)? && are_right;
    }
    are_right = tells(&rt, "grid of 100489 faces", grid_row(rt.alloc())?)? && are_right;
    are_right = tells(&rt, "262145 separate quads", tangled_row(rt.alloc())?)? && are_right;
    are_right = tells(&rt, "longest line", longest_line_row(rt.alloc())?)? && are_right;
    are_right = tells(
        &rt,
        "line one byte too long",
        too_long_line_row(rt.alloc())?,
    )? && are_right;
    Ok(if are_right {
        ExitCode::SUCCESS
    } else {
        ExitCode::FAILURE
    })
}

/// The names of the files here, in order.
fn case_files(rt: &HostRuntime) -> io::Result<Vec<String>> {
    let mut names = Vec::new(rt.alloc());
    for entry in fs::read_dir(rt, ".")? {
        names.push(entry?.file_name().to_string(rt.alloc())?)?;
    }
    names.sort()?;
    Ok(names)
}

/// Runs a case, prints whether the answer is as expected, and returns that.
fn tells(rt: &HostRuntime, name: &str, case: Case) -> io::Result<bool> {
    let is_right = passes(rt.alloc(), case)?;
    let said = if is_right { "as expected" } else { "DIFFERS" };
    println!(rt; "{name}: {said}")?;
    Ok(is_right)
}
