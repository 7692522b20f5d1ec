//! Why a command ends without its output.

ghost use Rattle.std.specs.Prelude.{◌≡◌, ◌≢◌, []};
ghost use Rattle.def_io.specs.declared.fails.WriteFail.TheVariants as fails;
ghost use Rattle.def_text.specs.Fails.{of_obj, of_read};
ghost use Rattle.qm_top.specs.Named.{HasNames, IsUnnamed};
ghost use Rattle.qm_top.specs.Refusals.{answer_of, answer_of_layout, answer_of_marks, answer_of_obj};
ghost use Rattle.qm_top.specs.Refusals.{answer_of_soup, answer_of_words, names_of, refusal_of_size};
ghost use Rattle.qm_top.specs.Writing.{refusal_of_put};
ghost use Rattle.qm_top.specs.declared.refusal.Refusal.TheVariants as refusals;

use crate::named::NamedPlace;
use def_io::{ReadFail, WriteFail};
use def_marks::MarkFail;
use def_metric::SizeFail;
use def_output::Stopped;
use def_remesh::LayoutFail;
use def_run::{Answer, Why, WordsFail};
use def_text::{ObjFail, SoupFail, Which};
use qm_write::PutFail;
use std::alloc::{AllocError, Global};

/// Why a command ends without its output.
#[derive(Debug, Drop)]
pub(crate) enum Refusal {
    NotAccepted(Why),
    Soup(SoupFail),
    NotManifold(NamedPlace),
    Marks(MarkFail),
    Layout(LayoutFail),
    Far(u128),
    Write(WriteFail),
    Memory,
}

/// The answer of a run that is not done, with the numbers in the file of the vertices that it may name.
#[derive(Debug, Drop)]
pub(crate) struct Reply {
    pub(crate) answer: Answer,
    pub(crate) names: Vec<u32>,
}

impl Refusal {
    /// The answer of the run. It takes no memory.
    pub(crate) fn into_reply(self, alloc: Global) -> Reply
        ensures answer { result.answer ≡ answer_of self }
        ensures names { result.names.items ≡ names_of self }
        ensures named { HasNames result.names.items result.answer }
        ensures refusal { result.answer ≢ Answer.Done }
        ensures accepted { result.answer ≢ Answer.Usage }
    {
        match self {
            Refusal::NotAccepted(why) => without_names(alloc, Answer::NotAccepted { why }),
            Refusal::Soup(fail) => without_names(alloc, soup_answer(fail)),
            Refusal::NotManifold(named) => Reply {
                answer: Answer::NotManifold { place: named.place },
                names: named.names,
            },
            Refusal::Marks(fail) => without_names(alloc, marks_answer(fail)),
            Refusal::Layout(fail) => without_names(alloc, layout_answer(fail)),
            Refusal::Far(sum) => without_names(alloc, Answer::Far { sum }),
            Refusal::Write(_) => without_names(alloc, Answer::WriteFault),
            Refusal::Memory => without_names(alloc, Answer::Memory),
        }
    }
}

/// An answer that names no vertex.
fn without_names(alloc: Global, answer: Answer) -> Reply
    ensures answer { result.answer ≡ answer }
    ensures names { result.names.items ≡ [] }
{
    Reply {
        answer,
        names: Vec::new(alloc),
    }
}

impl From<SoupFail> for Refusal {
    ghost from_gives = { λ fail e. e ≡ refusals.Soup fail };

    fn from(fail: SoupFail) -> Refusal {
        Refusal::Soup(fail)
    }
}

impl From<ReadFail> for Refusal {
    ghost from_gives = { λ fail e. e ≡ refusals.Soup (of_read fail) };

    fn from(fail: ReadFail) -> Refusal {
        Refusal::Soup(SoupFail::from(fail))
    }
}

impl From<ObjFail> for Refusal {
    ghost from_gives = { λ fail e. e ≡ refusals.Soup (of_obj fail) };

    fn from(fail: ObjFail) -> Refusal {
        Refusal::Soup(SoupFail::from(fail))
    }
}

impl From<MarkFail> for Refusal {
    ghost from_gives = { λ fail e. e ≡ refusals.Marks fail };

    fn from(fail: MarkFail) -> Refusal {
        Refusal::Marks(fail)
    }
}

impl From<LayoutFail> for Refusal {
    ghost from_gives = { λ fail e. e ≡ refusals.Layout fail };

    fn from(fail: LayoutFail) -> Refusal {
        Refusal::Layout(fail)
    }
}

impl From<SizeFail> for Refusal {
    ghost from_gives = { λ fail e. e ≡ refusal_of_size fail };

    fn from(fail: SizeFail) -> Refusal {
        match fail {
            SizeFail::Far { sum } => Refusal::Far(sum),
            SizeFail::Layout { fail } => Refusal::Layout(fail),
        }
    }
}

impl From<WriteFail> for Refusal {
    ghost from_gives = { λ fail e. e ≡ refusals.Write fail };

    fn from(fail: WriteFail) -> Refusal {
        Refusal::Write(fail)
    }
}

impl From<Stopped> for Refusal {
    ghost from_gives = { λ _ e. e ≡ refusals.Write fails.Fault };

    fn from(_: Stopped) -> Refusal {
        Refusal::Write(WriteFail::Fault)
    }
}

impl From<PutFail> for Refusal {
    ghost from_gives = { λ fail e. e ≡ refusal_of_put fail };

    fn from(fail: PutFail) -> Refusal {
        match fail {
            PutFail::Stopped => Refusal::Write(WriteFail::Fault),
            PutFail::Memory => Refusal::Memory,
        }
    }
}

impl From<AllocError> for Refusal {
    ghost from_gives = { λ _ e. e ≡ refusals.Memory };

    fn from(_: AllocError) -> Refusal {
        Refusal::Memory
    }
}

/// The answer to words that are no command.
pub(crate) fn words_answer(fail: WordsFail) -> Answer
    ensures answer { result ≡ answer_of_words fail }
    ensures unnamed { HasNames [] result }
{
    match fail {
        WordsFail::Usage => Answer::Usage,
        WordsFail::Memory => Answer::Memory,
    }
}

fn soup_answer(fail: SoupFail) -> Answer
    ensures answer { result ≡ answer_of_soup fail }
    ensures unnamed { IsUnnamed result }
{
    match fail {
        SoupFail::Fault => Answer::ReadFault,
        SoupFail::TooLong => Answer::Limit {
            which: Which::Bytes,
            line: 0,
        },
        SoupFail::Obj(fail) => obj_answer(fail),
        SoupFail::Memory => Answer::Memory,
    }
}

fn obj_answer(fail: ObjFail) -> Answer
    ensures answer { result ≡ answer_of_obj fail }
    ensures unnamed { IsUnnamed result }
{
    match fail {
        ObjFail::Syntax { line } => Answer::Syntax { line },
        ObjFail::NotQuad { line, corners } => Answer::NotQuad { line, corners },
        ObjFail::Range { line } => Answer::Range { line },
        ObjFail::Limit { which, line } => Answer::Limit { which, line },
        ObjFail::Memory => Answer::Memory,
    }
}

fn marks_answer(fail: MarkFail) -> Answer
    ensures answer { result ≡ answer_of_marks fail }
    ensures unnamed { IsUnnamed result }
{
    match fail {
        MarkFail::Syntax { line } => Answer::Syntax { line },
        MarkFail::Range { line } => Answer::Range { line },
        MarkFail::NotEdge { line } => Answer::NotEdge { line },
        MarkFail::Memory => Answer::Memory,
    }
}

fn layout_answer(fail: LayoutFail) -> Answer
    ensures answer { result ≡ answer_of_layout fail }
    ensures unnamed { IsUnnamed result }
{
    match fail {
        LayoutFail::Tangled { count } => Answer::Tangled { count },
        LayoutFail::TooFine { faces, kept } => Answer::TooFine { faces, kept },
        LayoutFail::Doubled { u, v, cert } => Answer::Doubled { u, v, cert },
        LayoutFail::Memory => Answer::Memory,
    }
}
