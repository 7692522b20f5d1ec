//! A blocking flow: along steps that cost nothing, from level to level, until no more can be brought to an end.

ghost use Rattle.std.specs.Prelude.{◌≡◌, ◌<◌, length, IfOk};
ghost use Rattle.qm_warmstart.specs.Tables.{AreBelow};

use crate::Memory;
use crate::cover::{Cover, Exit, Step};
use crate::flow::Flow;
use crate::phases::Room;
use std::alloc::Global;

/// The path of a blocking flow.
#[derive(Debug, Drop)]
pub(crate) struct Course {
    /// Where it begins, and where it has come to.
    source: u32,
    node: u32,
    /// Its exits in turn, and for each exit whether it is one of them.
    path: Vec<u32>,
    pub(crate) on_path: Vec<bool>,
    /// The sources of which a path was found that a chain did not allow.
    pub(crate) hit: Vec<bool>,
    ghost begun: { source < length hit.items },
    ghost come: { node < length hit.items },
    ghost along: { AreBelow (length on_path.items) path.items },
}

/// No path.
pub(crate) fn no_course(alloc: Global, cover: &Cover) -> Result<Course, Memory>
    ensures exits { IfOk result (λ course. length course.on_path.items ≡ length cover.now.exits.items) }
    ensures nodes { IfOk result (λ course. length course.hit.items ≡ cover.now.nodes) }
{
    Ok(Course {
        source: 0,
        node: 0,
        path: Vec::new(alloc),
        on_path: vec![in alloc; false; cover.exits.len()]?,
        hit: vec![in alloc; false; cover.nodes as usize]?,
    })
}

/// What a look at an exit comes to.
#[derive(Clone, Copy, Debug, PartialEq, Eq)]
enum Advance {
    Moved,
    Brought,
    Over,
}

impl Course {
    /// Begins a path at a source.
    pub(crate) fn begin(&mut self, source: u32)
        requires { source < length self.old.hit.items }
        ensures exits { length self.new.on_path.items ≡ length self.old.on_path.items }
        ensures nodes { length self.new.hit.items ≡ length self.old.hit.items }
    {
        self.source = source;
        self.node = source;
        self.path.clear();
        self.hit[source as usize] = false;
    }

    /// Goes on to a node along an exit.
    fn go_on(&mut self, place: u32, node: u32) -> Result<(), Memory>
        requires { (place < length self.old.on_path.items) × (node < length self.old.hit.items) }
        ensures exits { length self.new.on_path.items ≡ length self.old.on_path.items }
        ensures nodes { length self.new.hit.items ≡ length self.old.hit.items }
    {
        self.path.push(place)?;
        self.node = node;
        Ok(())
    }

    /// Notes that a chain did not allow the path.
    fn note_hit(&mut self)
        ensures exits { length self.new.on_path.items ≡ length self.old.on_path.items }
        ensures nodes { length self.new.hit.items ≡ length self.old.hit.items }
    {
        self.hit[self.source as usize] = true;
    }

    /// Marks the exits of the path, or takes the marks away.
    fn mark(&mut self, on_path: bool)
        ensures exits { length self.new.on_path.items ≡ length self.old.on_path.items }
        ensures nodes { length self.new.hit.items ≡ length self.old.hit.items }
    {
        for k in 0..self.path.len() {
            let place = self.path[k];
            self.on_path[place as usize] = on_path;
        }
    }
}

impl Room<'_> {
    /// Brings what is too much at the source of a path that has begun to ends, as much as the levels allow, and tells
    /// whether that was anything. Each exit that is looked at takes one of the fuel.
    pub(crate) fn flow_on(&mut self, fuel: &mut u32) -> Result<bool, Memory>
        ensures cover { self.new.search.flow.cover.now ≡ self.old.search.flow.cover.now }
        ensures awake { self.new.awake ≡ self.old.awake }
    {
        let mut brought = false;
        for _ in 0..*fuel {
            if *fuel == 0 || self.search.flow.excess[self.course.source as usize] <= 0 {
                break;
            }
            *fuel = fuel.saturating_sub(1);
            match self.look()? {
                Advance::Moved => {}
                Advance::Brought => brought = true,
                Advance::Over => break,
            }
        }
        Ok(brought)
    }

    /// Looks at the next exit of the node that the path has come to.
    fn look(&mut self) -> Result<Advance, Memory>
        ensures cover { self.new.search.flow.cover.now ≡ self.old.search.flow.cover.now }
        ensures awake { self.new.awake ≡ self.old.awake }
    {
        let cover = self.search.flow.cover;
        let (source, node) = (self.course.source, self.course.node);
        let place = self.levels.next[node as usize];
        if place >= cover.exits_of(node).1 {
            return Ok(self.retreat());
        }
        if !self.is_open(place) {
            self.levels.pass(node);
            return Ok(Advance::Moved);
        }
        self.course.go_on(place, cover.exit(place).to)?;
        if !self.is_end() {
            return Ok(Advance::Moved);
        }
        if self.send() {
            self.course.begin(source);
            return Ok(Advance::Brought);
        }
        self.course.note_hit();
        self.step_back();
        Ok(Advance::Moved)
    }

    /// Leaves a node whose exits have all been looked at. It has no level any more, unless it may serve other sources:
    /// the mirror image of a source may be an end for each other one.
    fn retreat(&mut self) -> Advance
        ensures cover { self.new.search.flow.cover.now ≡ self.old.search.flow.cover.now }
        ensures awake { self.new.awake ≡ self.old.awake }
    {
        let flow = &self.search.flow;
        let (source, node) = (self.course.source, self.course.node);
        if node == source {
            return Advance::Over;
        }
        let serves = flow.mirrored && node == flow.cover.mirror(source);
        if !serves {
            self.levels.sink(node);
        }
        self.step_back();
        Advance::Moved
    }

    /// Goes back along the last exit of the path, which is not looked at again.
    fn step_back(&mut self)
        ensures cover { self.new.search.flow.cover.now ≡ self.old.search.flow.cover.now }
        ensures awake { self.new.awake ≡ self.old.awake }
    {
        let cover = self.search.flow.cover;
        let course = &mut self.course;
        let _ = course.path.pop();
        let node = match course.path.last() {
            None => course.source,
            Some(place) => cover.exit(*place).to,
        };
        course.node = node;
        self.levels.pass(node);
    }

    /// Whether an exit of the node that the path has come to costs nothing and leads to the ground of a mirrored flow
    /// or to a live node of the next level.
    fn is_open(&self, place: u32) -> bool
        requires { place < length self.now.search.flow.cover.now.exits.items }
    {
        let (flow, levels) = (&self.search.flow, &self.levels);
        let node = self.course.node;
        let to = flow.cover.exit(place).to;
        if flow.reduced(flow.prices[node as usize], place, to) > 0 {
            return false;
        }
        if flow.mirrored && to == flow.cover.ground() {
            return true;
        }
        levels.live[to as usize]
            && levels.level[to as usize] == levels.level[node as usize].saturating_add(1)
    }

    /// Whether the path has come to a node that has too little. The mirror image of the source takes two at once: one
    /// goes each way.
    fn is_end(&self) -> bool {
        let (flow, course) = (&self.search.flow, &self.course);
        let has_too_little = flow.excess[course.node as usize] < 0;
        if flow.mirrored && course.node == flow.cover.mirror(course.source) {
            has_too_little && flow.excess[course.source as usize] >= 2
        } else {
            has_too_little
        }
    }

    /// Brings along the path as much as its chains allow, if they allow any, and in a mirrored flow its mirror image
    /// too.
    fn send(&mut self) -> bool
        ensures cover { self.new.search.flow.cover.now ≡ self.old.search.flow.cover.now }
        ensures awake { self.new.awake ≡ self.old.awake }
    {
        let most = self.most_along();
        let much = self.allowance(most);
        if much == 0 || much > i64::MAX as u64 {
            return false;
        }
        for k in 0..self.course.path.len() {
            let place = self.course.path[k];
            let step = self.search.flow.cover.exit(place).step;
            self.search.go(step, much);
        }
        let (source, node) = (self.course.source, self.course.node);
        self.search.bring(source, node, much as i64);
        true
    }

    /// As much as the path's first node has too much and its last one too little.
    fn most_along(&self) -> u64 {
        let flow = &self.search.flow;
        let (source, node) = (self.course.source, self.course.node);
        let excess = flow.excess[source as usize].max(0).unsigned_abs();
        if flow.mirrored && node == flow.cover.mirror(source) {
            excess / 2
        } else {
            excess.min(flow.excess[node as usize].unsigned_abs())
        }
    }

    /// So much, or less by halving, as all chains of the path allow at the cost of the first step. In a mirrored flow
    /// it is even where it can be, so that fewer halves are left.
    fn allowance(&mut self, most: u64) -> u64
        ensures search { self.new.search ≡ self.old.search }
        ensures awake { self.new.awake ≡ self.old.awake }
    {
        self.course.mark(true);
        let much = self.allowed(most);
        self.course.mark(false);
        if self.search.flow.mirrored && much > 1 {
            much - much % 2
        } else {
            much
        }
    }

    /// So much, or less by halving, as all chains of the path allow, whose exits are marked.
    fn allowed(&self, most: u64) -> u64 {
        let (flow, course) = (&self.search.flow, &self.course);
        let cover = flow.cover;
        let mut much = most;
        for place in &course.path {
            let Exit { step, .. } = cover.exit(*place);
            let image = Step {
                way: cover.other(step.way),
                more: step.more,
            };
            let twice = flow.mirrored && course.on_path[cover.place(image) as usize];
            much = flow.part_along(step, much, twice);
        }
        much
    }
}

impl Flow<'_> {
    /// So much, or less by halving, as a step allows that is gone once or twice with it, at the cost of the first time.
    fn part_along(&self, step: Step, much: u64, twice: bool) -> u64
        requires { step.way < length self.now.cover.now.ways.items }
    {
        let count = if twice { 2 } else { 1 };
        let mut part = much.saturating_mul(count);
        while part > 1 && !self.is_even(step, part) {
            part /= 2;
        }
        part / count
    }
}
