//! Where a text goes.

ghost use Rattle.std.specs.Prelude.{◌++◌, [], ℕ, List, OnOk, OnErr};

use def_output::Stopped;

/// Where a text goes, piece by piece. What is said of one piece holds of all pieces that are put one after the other,
/// so a function that puts a whole text has the two clauses of `put` for that text.
pub trait Output {
    /// From the first state to the second it took exactly this text.
    ghost takes: { Self → Self → List ℕ → Type 0 };

    /// From the first state to the second it was handed a prefix of this text, and took no more.
    ghost stops: { Self → Self → List ℕ → Type 0 };

    /// Puts a piece behind what was put before. Once it has stopped it is put nothing more.
    fn put(&mut self, piece: &[u8]) -> Result<(), Stopped>
        ensures whole { OnOk result (takes self.old self.new piece.now) }
        ensures part { OnErr result (stops self.old self.new piece.now) };

    ghost takes_nothing: { (at : Self) → takes at at [] };

    ghost takes_more: { (a b c : Self) (s t : List ℕ) → takes a b s → takes b c t → takes a c (s ++ t) };

    ghost stops_later: { (a b c : Self) (s t : List ℕ) → takes a b s → stops b c t → stops a c (s ++ t) };

    ghost stops_before: { (a b : Self) (s t : List ℕ) → stops a b s → stops a b (s ++ t) };
}
