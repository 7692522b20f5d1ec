//! Choosing the matched edges within blossoms, from the outermost ones inwards.

ghost use Rattle.std.specs.Prelude.{◌≡◌, ◌≢◌, ◌+◌, ◌-◌, ◌*◌, ◌/◌, ◌<◌, ◌⊎◌, ℕ, true, length, slice_index};
ghost use Rattle.std.specs.Prelude.{slice_index_or};
ghost use Rattle.std.specs.Prelude.{slice_set, Some, None};
ghost use Rattle.def_forest.specs.Forests.{Blossom, bool_number, ring_sum};
ghost use Rattle.def_matching.specs.Matching.{Vertex};
ghost use Rattle.def_forest.specs.Tables.{forest_of, up_at};
ghost use Rattle.def_forest.specs.Needs.{IsHeld};
ghost use Rattle.qm_forest.specs.Rounds.{IsRound, HasRoom, IsPairing};
ghost use Rattle.qm_forest.specs.Rounds.{AreInOrder, within, waits_but, entered};
ghost use Rattle.qm_forest.specs.Rounds.{near_at, far_at, is_dart, matched_by};

use crate::darts::twin;
use crate::forest::Forest;
use crate::numbers::read;

/// The edges that are chosen; and of each set that waits the vertex that is matched elsewhere, or not at all.
#[derive(Drop)]
pub(crate) struct Round {
    pub(crate) marks: Vec<bool>,
    pub(crate) left_out: Vec<Option<u32>>,
}

impl Forest {
    /// Matches two blossoms by a dart from the one to the other. Of a set all vertices but the dart's end wait then.
    #[tactic(auto, using(crate::proofs::RingRounds::entered_size))]
    pub(crate) fn pair(&self, x: u32, y: u32, d: u32, round: &mut Round)
        requires room { HasRoom self.now round.old }
        requires pairing { IsPairing self.now x y d }
        ensures room { HasRoom self.now round.new }
        ensures marks { round.new.marks.items ≡ slice_set round.old.marks.items (d / 2) true }
        ensures left_out { round.new.left_out.items ≡ entered (length self.now.hand)
            (entered (length self.now.hand) round.old.left_out.items x (near_at self.now d)) y (far_at self.now d) }
    {
        round.marks[(d / 2) as usize] = true;
        self.enter(x, self.start_of(d), round);
        self.enter(y, self.start_of(twin(d)), round);
    }

    /// A set waits, with all its vertices but one.
    fn enter(&self, c: u32, v: u32, round: &mut Round)
        requires { c < length round.old.left_out.items }
        ensures marks { round.new.marks ≡ round.old.marks }
        ensures left_out { round.new.left_out.items
            ≡ entered (length self.now.hand) round.old.left_out.items c v }
    {
        if c >= self.vertices() {
            round.left_out[c as usize] = Some(v);
        }
    }

    /// Where a dart begins.
    fn start_of(&self, d: u32) -> u32
        ensures { result ≡ near_at self.now d }
    {
        read(&self.tree.near, d, 0)
    }

    /// The dart from a part to the next on the ring.
    pub(crate) fn joint(&self, x: u32) -> u32
        ensures { result ≡ slice_index self.now.joint x }
    {
        read(&self.rings.joint, x, 0)
    }

    /// Matches the parts of a set in pairs along the ring, but for one part.
    fn match_ring(&self, p: u32, round: &mut Round)
        requires room { HasRoom self.now round.old }
        requires inner { up_at self.now.up p ≢ p }
        ensures room { HasRoom self.now round.new }
        ensures done { let after = slice_index self.now.after in
            let many = slice_index self.now.parts (up_at self.now.up p) in
            (rest due : Blossom → ℕ) → IsRound self.now round.old.marks.items round.old.left_out.items
            (λ b. ring_sum after (λ r. bool_number (within self.now b r)) (after p) (many - 1) + rest b) due
            → IsRound self.now round.new.marks.items round.new.left_out.items rest due }
        ensures entries { (c : Blossom) (v : Vertex) → slice_index_or round.new.left_out.items c None ≡ Some v
            → (slice_index_or round.old.left_out.items c None ≡ Some v)
            ⊎ (slice_index self.now.rank c < slice_index self.now.rank (up_at self.now.up p)) }
    {
        let mut x = self.next(p);
        for _ in 0..self.parts(self.up_at(p)) / 2 {
            let y = self.next(x);
            let d = self.joint(x);
            self.pair(x, y, d, round);
            x = self.next(y);
        }
    }

    /// Matches all vertices of a blossom but one, going up from that one; parts that are sets wait.
    pub(crate) fn match_up(&self, c: u32, v: u32, round: &mut Round)
        requires room { HasRoom self.now round.old }
        requires held { IsHeld self.now c v }
        ensures room { HasRoom self.now round.new }
        ensures done { (rest due : Blossom → ℕ) → IsRound self.now round.old.marks.items round.old.left_out.items
            (λ b. waits_but self.now b c v + rest b) due
            → IsRound self.now round.new.marks.items round.new.left_out.items rest due }
        ensures entries { (b : Blossom) (w : Vertex) → slice_index_or round.new.left_out.items b None ≡ Some w
            → (slice_index_or round.old.left_out.items b None ≡ Some w)
            ⊎ (slice_index self.now.rank b < slice_index self.now.rank c) }
    {
        let mut p = v;
        while p != c {
            self.match_ring(p, round);
            p = self.up_at(p);
        }
    }

    /// Matches the outermost blossoms as they are matched. All sets among them wait then.
    pub(crate) fn match_mates(&self, round: &mut Round)
        requires room { HasRoom self.now round.old }
        requires begun { IsRound self.now round.old.marks.items round.old.left_out.items (λ b. 0) (λ b. 0) }
        ensures room { HasRoom self.now round.new }
        ensures done { IsRound self.now round.new.marks.items round.new.left_out.items (λ b. 0)
            (matched_by self.now (length round.new.marks.items)) }
    {
        for e in 0..round.marks.len() as u32 {
            self.match_edge(e, round);
        }
    }

    /// Matches two outermost blossoms by an edge, if they are matched by it.
    fn match_edge(&self, e: u32, round: &mut Round)
        requires room { HasRoom self.now round.old }
        requires edge { e < length round.old.marks.items }
        requires begun { IsRound self.now round.old.marks.items round.old.left_out.items (λ b. 0)
            (matched_by self.now e) }
        ensures room { HasRoom self.now round.new }
        ensures edges { length round.new.marks.items ≡ length round.old.marks.items }
        ensures done { IsRound self.now round.new.marks.items round.new.left_out.items (λ b. 0)
            (matched_by self.now (e + 1)) }
    {
        let a = self.outermost(self.start_of(2 * e));
        let matched = self.is_mate(a, 2 * e);
        if matched {
            let b = self.outermost(self.start_of(2 * e + 1));
            self.pair(a, b, 2 * e, round);
        }
    }

    /// Whether a blossom is matched by a dart.
    fn is_mate(&self, a: u32, d: u32) -> bool
        ensures { result ≡ is_dart ((forest_of self.now).mate a) d }
    {
        match self.mate(a) {
            Some(m) => m == d,
            None => false,
        }
    }

    /// Matches a set that waits: from now on it does not, and parts of it may.
    fn match_set(&self, c: u32, round: &mut Round)
        requires room { HasRoom self.now round.old }
        requires begun { (rest : Blossom → ℕ) × (due : Blossom → ℕ)
            × IsRound self.now round.old.marks.items round.old.left_out.items rest due }
        requires low { c < length self.now.up }
        ensures room { HasRoom self.now round.new }
        ensures done { (rest due : Blossom → ℕ)
            → IsRound self.now round.old.marks.items round.old.left_out.items rest due
            → IsRound self.now round.new.marks.items round.new.left_out.items rest due }
        ensures entries { (b : Blossom) (w : Vertex) → slice_index_or round.new.left_out.items b None ≡ Some w
            → ((slice_index_or round.old.left_out.items b None ≡ Some w) × (b ≢ c))
            ⊎ (slice_index self.now.rank b < slice_index self.now.rank c) }
    {
        if let Some(v) = round.left_out[c as usize] {
            round.left_out[c as usize] = None;
            self.match_up(c, v, round);
        }
    }

    /// Matches all sets that wait, and those that wait then: those with more vertices first.
    pub(crate) fn match_waiting(&self, sets: &[(u32, u32)], round: &mut Round)
        requires room { HasRoom self.now round.old }
        requires sets { AreInOrder self.now sets.now }
        requires begun { (rest : Blossom → ℕ) × (due : Blossom → ℕ)
            × IsRound self.now round.old.marks.items round.old.left_out.items rest due }
        ensures room { HasRoom self.now round.new }
        ensures done { (rest due : Blossom → ℕ)
            → IsRound self.now round.old.marks.items round.old.left_out.items rest due
            → IsRound self.now round.new.marks.items round.new.left_out.items rest due }
        ensures ended { (c : Blossom) → slice_index_or round.new.left_out.items c None ≡ None }
    {
        let count = sets.len();
        for k in 0..count {
            self.match_set(set_at(sets, count - 1 - k), round);
        }
    }
}

/// The set at a place of a list.
pub(crate) fn set_at(sets: &[(u32, u32)], k: usize) -> u32
    ensures { result ≡ (slice_index_or sets.now k (0, 0)).1 }
{
    match sets.get(k) {
        Some(set) => set.1,
        None => 0,
    }
}
