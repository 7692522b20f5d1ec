//! The law of the canonical text.

ghost use Rattle.def_text.specs.Laws.{ReadsBack};

/// The law of the canonical text: it reads back as the soup that it was written for. It does nothing.
#[tactic(auto, using(crate::proofs::LawSoup::text_back))]
pub fn reads_back()
    ensures { ReadsBack }
{}
