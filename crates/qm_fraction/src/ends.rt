//! What a way from a free vertex changes: mates along it, and an odd cycle that it closes or breaks.

ghost use Rattle.std.specs.Prelude.{◌≡◌, ◌<◌, IfSome};
ghost use Rattle.qm_fraction.specs.Tables.{IsStepWithin};

use crate::exits::{Dart, dart_at, twin};
use crate::vertices::{HALVES, Vertices};

/// A step of a way from an outer vertex towards the source: its mate, an inner vertex, and the dart by which that was
/// reached, from the next outer vertex.
#[derive(Clone, Copy, Debug, PartialEq, Eq)]
pub(crate) struct Step {
    pub(crate) inner: u32,
    pub(crate) dart: u32,
    pub(crate) above: u32,
}

impl Vertices<'_> {
    /// Changes the mates along a way that was found, by the dart that leads to its end. An odd cycle where it ends is
    /// broken, and one that it closes stays.
    pub(crate) fn end_way(&mut self, last: u32, closes: bool)
        ensures { self.new.g ≡ self.old.g }
    {
        let Some(Dart { from, to, .. }) = dart_at(self.g, last) else {
            return;
        };
        if closes {
            let top = self.meeting(from, to);
            self.close(last, top);
        } else {
            self.break_cycle(to);
            self.change(last);
        }
    }

    /// Matches the ends of a dart from an outer vertex, and changes mates from there to the source.
    fn change(&mut self, last: u32)
        ensures { self.new.g ≡ self.old.g }
    {
        let mut dart = last;
        for _ in 0..self.g.n() {
            let Some(Dart { from, to, .. }) = dart_at(self.g, dart) else {
                return;
            };
            let before = self.all[from as usize].mate;
            self.join(from, to, dart);
            if before >= self.g.n() {
                return;
            }
            dart = self.all[before as usize].by;
        }
    }

    /// Matches all vertices of an odd cycle but one to each other.
    fn break_cycle(&mut self, first: u32)
        requires { first < self.old.g.now.graph.n }
        ensures { self.new.g ≡ self.old.g }
    {
        if self.all[first as usize].mate != HALVES {
            return;
        }
        let mut next = self.all[first as usize].next;
        for _ in 0..self.g.n() {
            let Some(Dart { to: at, .. }) = dart_at(self.g, next) else {
                return;
            };
            if at == first {
                return;
            }
            let dart = self.all[at as usize].next;
            let Some(Dart { to: mate, .. }) = dart_at(self.g, dart) else {
                return;
            };
            next = self.all[mate as usize].next;
            self.join(at, mate, dart);
        }
    }

    /// The step from an outer vertex towards the source, unless it is the source.
    fn step_from(&self, at: u32) -> Option<Step>
        requires { at < self.now.g.now.graph.n }
        ensures { IfSome result (IsStepWithin self.now.g.now.graph.n) }
    {
        let inner = self.all[at as usize].mate;
        if inner >= self.g.n() {
            return None;
        }
        let dart = self.all[inner as usize].by;
        let Some(Dart { from: above, .. }) = dart_at(self.g, dart) else {
            return None;
        };
        Some(Step { inner, dart, above })
    }

    /// The outer vertex where the ways of two outer ones to the source meet.
    fn meeting(&mut self, u: u32, v: u32) -> u32
        requires { (u < self.old.g.now.graph.n) × (v < self.old.g.now.graph.n) }
        ensures same { self.new.g ≡ self.old.g }
        ensures vertex { result < self.new.g.now.graph.n }
    {
        self.mark_way(u, true);
        let top = self.first_marked(v);
        self.mark_way(u, false);
        top
    }

    /// Sets the marks of all outer vertices from one to the source.
    fn mark_way(&mut self, from: u32, is_marked: bool)
        requires { from < self.old.g.now.graph.n }
        ensures { self.new.g ≡ self.old.g }
    {
        let mut at = from;
        for _ in 0..self.g.n() {
            self.all[at as usize].is_marked = is_marked;
            let Some(Step { above, .. }) = self.step_from(at) else {
                return;
            };
            at = above;
        }
    }

    /// The first outer vertex with a mark, from one to the source.
    fn first_marked(&self, from: u32) -> u32
        requires { from < self.now.g.now.graph.n }
        ensures { result < self.now.g.now.graph.n }
    {
        let mut at = from;
        for _ in 0..self.g.n() {
            if self.all[at as usize].is_marked {
                return at;
            }
            let Some(Step { above, .. }) = self.step_from(at) else {
                return at;
            };
            at = above;
        }
        at
    }

    /// Closes the odd cycle of a dart between two outer vertices, whose ways meet at a third, and changes mates from
    /// there to the source.
    fn close(&mut self, last: u32, top: u32)
        requires { top < self.old.g.now.graph.n }
        ensures { self.new.g ≡ self.old.g }
    {
        let Some(Dart { from, to, .. }) = dart_at(self.g, last) else {
            return;
        };
        let stem = self.all[top as usize].mate;
        self.turn_up(from, top);
        self.turn_down(twin(last), to, top);
        if stem < self.g.n() {
            let dart = self.all[stem as usize].by;
            self.change(dart);
        }
    }

    /// Turns the way from an outer vertex up to another into a part of an odd cycle.
    fn turn_up(&mut self, from: u32, top: u32)
        requires { from < self.old.g.now.graph.n }
        ensures { self.new.g ≡ self.old.g }
    {
        let mut at = from;
        for _ in 0..self.g.n() {
            if at == top {
                return;
            }
            let Some(Step { inner, dart, above }) = self.step_from(at) else {
                return;
            };
            self.all[at as usize].mate = HALVES;
            self.all[inner as usize].mate = HALVES;
            self.all[inner as usize].next = twin(dart);
            at = above;
        }
    }

    /// Turns the way down to an outer vertex from another into a part of an odd cycle, which goes on by a dart from
    /// there.
    fn turn_down(&mut self, last: u32, to: u32, top: u32)
        requires { to < self.old.g.now.graph.n }
        ensures { self.new.g ≡ self.old.g }
    {
        let mut at = to;
        let mut next = last;
        for _ in 0..self.g.n() {
            let step = self.step_from(at);
            self.all[at as usize].next = next;
            self.all[at as usize].mate = HALVES;
            if at == top {
                return;
            }
            let Some(Step { inner, dart, above }) = step else {
                return;
            };
            self.all[inner as usize].mate = HALVES;
            next = dart;
            at = above;
        }
    }
}
