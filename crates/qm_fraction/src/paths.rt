//! Searches for the nearest end of a way from a free vertex, and the numbers that make all edges of the way tight.

ghost use Rattle.std.specs.Prelude.{◌≡◌, ◌<◌};

use crate::Memory;
use crate::search::Search;
use crate::vertices::{FAR, NONE, Vertex, Vertices};

impl Search<'_> {
    /// Matches each free vertex, or puts it on an odd cycle, as far as the fuel goes: each exit that is looked at takes
    /// one.
    pub(crate) fn match_all(&mut self) -> Result<(), Memory>
        ensures { self.new.vertices.g ≡ self.old.vertices.g }
    {
        for v in 0..self.exits.vertices {
            if self.vertices.all[v as usize].mate == NONE {
                if !self.find(v)? {
                    return Ok(());
                }
                self.move_numbers(v);
                self.vertices.end_way(self.last, self.closes);
                self.clear();
            }
        }
        Ok(())
    }

    /// Searches for the nearest end of a way from a free vertex. Whether it was found.
    fn find(&mut self, source: u32) -> Result<bool, Memory>
        requires { source < self.old.exits.vertices }
        ensures graph { self.new.vertices.g ≡ self.old.vertices.g }
        ensures exits { self.new.exits ≡ self.old.exits }
    {
        self.look_from(source)?;
        for _ in 0..self.fuel {
            let Some(v) = self.next()? else {
                return Ok(self.nearest < FAR);
            };
            let Vertex {
                distance,
                mate,
                is_outer,
                ..
            } = self.vertices.all[v as usize];
            if !is_outer && distance == self.radius && mate < self.exits.vertices {
                self.look_from(mate)?;
            }
            if self.fuel == 0 {
                break;
            }
        }
        Ok(false)
    }

    /// Makes a vertex an outer one, and goes on along its exits, until an end is found that no other can be nearer
    /// than.
    fn look_from(&mut self, from: u32) -> Result<(), Memory>
        requires { from < self.old.exits.vertices }
        ensures graph { self.new.vertices.g ≡ self.old.vertices.g }
        ensures exits { self.new.exits ≡ self.old.exits }
    {
        self.make_outer(from)?;
        let number = self.vertices.all[from as usize].number;
        let (first, end) = self.exits.range(from);
        for place in first..end {
            if self.is_over() {
                break;
            }
            self.count_look();
            let exit = self.exits.exit(place);
            let taken = number.saturating_add(self.vertices.all[exit.to as usize].number);
            let left = exit.twice.saturating_sub(taken).max(0).unsigned_abs();
            self.reach(exit, left)?;
        }
        self.fuel = self.fuel.saturating_sub(end.saturating_sub(first).max(1));
        Ok(())
    }

    /// Raises the numbers of all outer vertices by what they are nearer than the end, and lowers those of the inner
    /// ones as much: so all edges on the way there are tight.
    fn move_numbers(&mut self, source: u32)
        ensures graph { self.new.vertices.g ≡ self.old.vertices.g }
        ensures exits { self.new.exits ≡ self.old.exits }
    {
        self.vertices.raise(source, self.nearest);
        for k in 0..self.near.len() {
            let v = self.near[k];
            let Vertex {
                number,
                distance,
                mate,
                is_outer,
                ..
            } = self.vertices.all[v as usize];
            if !is_outer {
                let nearer = self.nearest.saturating_sub(distance);
                let vertices = &mut self.vertices;
                vertices.all[v as usize].number = number.saturating_sub_unsigned(nearer);
                vertices.raise(mate, nearer);
            }
        }
    }
}

impl Vertices<'_> {
    /// Raises a number.
    fn raise(&mut self, v: u32, much: u64)
        ensures { self.new.g ≡ self.old.g }
    {
        if (v as usize) < self.all.len() {
            let number = self.all[v as usize].number;
            self.all[v as usize].number = number.saturating_add_unsigned(much);
        }
    }
}
