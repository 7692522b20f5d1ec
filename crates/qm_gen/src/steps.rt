//! The stepped mesh.

ghost use Rattle.std.specs.Prelude.{◌≡◌, ◌≤◌, ◌<◌, ◌+◌, ◌*◌, ◌%◌, ◌^◌, ◌++◌, pos, length, map, IfOk, OnOk};
ghost use Rattle.std.specs.List.{range_with_len};
ghost use Rattle.def_gen.specs.Steps.{block_height, cell, cells, column_height, columns, grid_points};
ghost use Rattle.def_gen.specs.Steps.{point_number, row_cells, row_points, steps_soup};
ghost use Rattle.def_text.specs.Text.{numbers_to};

use crate::Memory;
use def_gen::{
    ADDEND, BLOCK_COLUMNS, FACTOR, GREATEST_HEIGHT, HEIGHTS, LEAST_HEIGHT, LOW_STATES, MAX_BLOCKS,
    STATES,
};
use def_text::{MAX_F_LINES, MAX_V_LINES, Micro, Soup};
use qm_obj::soup_of;
use std::alloc::Global;

/// The soup of so many blocks. Linear.
#[tactic(auto, using(crate::proofs::Grid::few_points))]
pub fn steps_mesh(alloc: Global, n: u32) -> Result<Soup, Memory>
    requires some { 1 ≤ n }
    requires few { n ≤ MAX_BLOCKS }
    ensures soup { IfOk result (λ soup. soup ≡ steps_soup n) }
    ensures small { IfOk result (λ soup. (length soup.pos ≤ MAX_V_LINES) × (length soup.faces ≤ MAX_F_LINES)) }
{
    let heights = block_heights(alloc, n)?;
    let points = grid_points(alloc, n)?;
    let cells = all_cells(alloc, n, &heights)?;
    let Soup { pos, faces, .. } = soup_of(alloc, points, cells)?;
    let names = numbers_to(alloc, pos.len() as u32)?;
    Ok(Soup { pos, faces, names })
}

/// The heights of the blocks.
fn block_heights(alloc: Global, n: u32) -> Result<Vec<u32>, Memory>
    requires { n ≤ MAX_BLOCKS }
    ensures { IfOk result (λ heights. heights.items ≡ map (block_height n) (range_with_len 0 n)) }
{
    let mut heights = Vec::new(alloc);
    let mut state = u64::from(n);
    for _ in 0..n {
        state = next_state(state);
        heights.push(LEAST_HEIGHT + (state / LOW_STATES % HEIGHTS) as u32)?;
    }
    Ok(heights)
}

fn next_state(state: u64) -> u64
    requires { state < STATES }
    ensures next { result ≡ (FACTOR * state + ADDEND) % STATES }
    ensures small { result < STATES }
{
    (FACTOR * state + ADDEND) % STATES
}

/// All points of the grid, row by row.
#[tactic(auto, using(crate::proofs::Ranges::flat_more))]
fn grid_points(alloc: Global, n: u32) -> Result<Vec<[Micro; 3]>, Memory>
    requires { n ≤ MAX_BLOCKS }
    ensures { IfOk result (λ points. points.items ≡ grid_points n) }
{
    let mut points = Vec::new(alloc);
    for y in 0..GREATEST_HEIGHT + 1 {
        push_points(&mut points, n, y)?;
    }
    Ok(points)
}

#[tactic(auto, using(crate::proofs::Ranges::pushed_more))]
fn push_points(points: &mut Vec<[Micro; 3]>, n: u32, y: u32) -> Result<(), Memory>
    requires few { n ≤ MAX_BLOCKS }
    requires low { y ≤ GREATEST_HEIGHT }
    ensures { OnOk result (points.new.items ≡ points.old.items ++ row_points n y) }
{
    for x in 0..BLOCK_COLUMNS * n + 1 {
        points.push([units(x), units(y), units(0)])?;
    }
    Ok(())
}

/// Whole units in millionths.
fn units(x: u32) -> Micro
    requires { x ≤ 100000 }
    ensures { result ≡ pos (x * 10 ^ 6) }
{
    Micro {
        n: i64::from(x) * 1_000_000,
    }
}

/// The cells of all rows, over the numbers of the grid's points.
#[tactic(auto, using(crate::proofs::Ranges::flat_more))]
fn all_cells(alloc: Global, n: u32, heights: &[u32]) -> Result<Vec<[u32; 4]>, Memory>
    requires few { n ≤ MAX_BLOCKS }
    requires heights { heights.now ≡ map (block_height n) (range_with_len 0 n) }
    ensures { IfOk result (λ faces. faces.items ≡ cells n) }
{
    let mut cells = Vec::new(alloc);
    for row in 0..GREATEST_HEIGHT {
        push_cells(&mut cells, n, row, heights)?;
    }
    Ok(cells)
}

fn push_cells(cells: &mut Vec<[u32; 4]>, n: u32, row: u32, heights: &[u32]) -> Result<(), Memory>
    requires few { n ≤ MAX_BLOCKS }
    requires low { row < GREATEST_HEIGHT }
    requires heights { heights.now ≡ map (block_height n) (range_with_len 0 n) }
    ensures { OnOk result (cells.new.items ≡ cells.old.items ++ row_cells n row) }
{
    for column in 0..BLOCK_COLUMNS * n {
        if row < column_height(n, column, heights) {
            cells.push(cell(n, column, row))?;
        }
    }
    Ok(())
}

fn column_height(n: u32, column: u32, heights: &[u32]) -> u32
    requires inside { column < columns n }
    requires heights { heights.now ≡ map (block_height n) (range_with_len 0 n) }
    ensures { result ≡ column_height n column }
{
    let _blocks = n;
    heights[(column / BLOCK_COLUMNS) as usize]
}

fn cell(n: u32, column: u32, row: u32) -> [u32; 4]
    requires few { n ≤ MAX_BLOCKS }
    requires inside { (column < columns n) × (row < GREATEST_HEIGHT) }
    ensures { result ≡ cell n column row }
{
    [
        point_number(n, column, row),
        point_number(n, column + 1, row),
        point_number(n, column + 1, row + 1),
        point_number(n, column, row + 1),
    ]
}

fn point_number(n: u32, x: u32, y: u32) -> u32
    requires few { n ≤ MAX_BLOCKS }
    requires inside { (x ≤ columns n) × (y ≤ GREATEST_HEIGHT) }
    ensures { result ≡ point_number n x y }
{
    y * (BLOCK_COLUMNS * n + 1) + x + 1
}

/// The numbers from 1 to the count.
fn numbers_to(alloc: Global, count: u32) -> Result<Vec<u32>, Memory>
    ensures { IfOk result (λ numbers. numbers.items ≡ numbers_to count) }
{
    let mut numbers = Vec::new(alloc);
    for number in 0..count {
        numbers.push(number + 1)?;
    }
    Ok(numbers)
}
