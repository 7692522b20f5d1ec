//! Runs over streams of any step, with a fault in each place, and the exit status.

ghost use Rattle.std.specs.Prelude.{◌≤◌};

use def_mesh::Place;
use def_run::Answer;
use qm_io::{MemSink, MemSource, Memory, ProcessLine};
use qm_top::{run, run_process};
use std::alloc::Global;
use std::env::{Env, FillError};
use std::process::Abort;
use std::test::Fail;

const QUAD: &[u8] = b"v 0 0 0\nv 3 0 0\nv 3 3 0\nv 0 3 0\nf 1 2 3 4\n";

const TWICE: &[u8] =
    b"v 0 0 0\nv 1 0 0\nv 1 1 0\nv 0 1 0\nv 2 0 0\nv 2 1 0\nf 1 2 3 4\nf 1 2 5 6\n";

/// A stream's step, and the number of its call that fails, or 0.
#[derive(Clone, Copy)]
struct Ends {
    step: usize,
    fails: u64,
    ghost moves: { 1 ≤ step },
}

const WELL: Ends = Ends { step: 10, fails: 0 };

fn source(alloc: Global, text: &[u8], ends: Ends) -> Result<MemSource, Memory> {
    Ok(MemSource::new(
        Vec::from_slice(alloc, text)?,
        ends.step,
        Vec::from_slice(alloc, &[ends.fails])?,
    ))
}

fn sink(alloc: Global, ends: Ends) -> Result<MemSink, Memory> {
    Ok(MemSink::new(alloc, ends.step, Vec::from_slice(alloc, &[ends.fails])?))
}

/// The streams of a run.
#[derive(Clone, Copy)]
struct Streams {
    input: Ends,
    out: Ends,
    err: Ends,
}

const ALL_WELL: Streams = Streams {
    input: WELL,
    out: WELL,
    err: WELL,
};

/// Commands that write a mesh: the first one whole, the others line by line; and one that writes its blocks.
const LINES: [&str; 6] = [
    "tidy",
    "remesh --scale 3/1 --floor 1 --weight plain",
    "crease --scale 3/1 --floor 1 --weight plain",
    "coarse --scale 3/1 --floor 1 --weight plain",
    "fit --keep lines --patches merged --aim lines --floor 3 --weight plain --spacing even",
    "blocks --by 3",
];

/// A run of a command line: its answer, what went out, and what was said of it.
fn ran(
    alloc: Global,
    line: &str,
    text: &[u8],
    streams: Streams,
) -> Result<(Answer, MemSink, MemSink), Memory> {
    let mut words = Vec::new(alloc);
    for word in line.split_whitespace() {
        words.push(word.to_string(alloc)?)?;
    }
    let (mut input, mut out, mut err) = (
        source(alloc, text, streams.input)?,
        sink(alloc, streams.out)?,
        sink(alloc, streams.err)?,
    );
    let answer = run(alloc, &words, &mut input, &mut out, &mut err);
    Ok((answer, out, err))
}

#[test]
fn pieces_of_any_size_give_the_same(rt: HostRuntime) -> Result<(), Fail> {
    for line in LINES {
        let (_answer, whole, _err) = ran(rt.alloc(), line, QUAD, ALL_WELL)?;
        for step in [1, 7, 10, 1000] {
            let ends = Ends { step, fails: 0 };
            let streams = Streams {
                input: ends,
                out: ends,
                err: ends,
            };
            let (answer, out, err) = ran(rt.alloc(), line, QUAD, streams)?;
            assert!(rt; matches!(answer, Answer::Done));
            assert_eq!(rt; out.taken(), whole.taken());
            assert_eq!(rt; err.taken(), b"".as_slice());
        }
    }
    Ok(())
}

#[test]
fn each_fault_of_the_source_is_told(rt: HostRuntime) -> Result<(), Fail> {
    for line in LINES {
        for fails in 1..8 {
            let input = Ends { step: 10, fails };
            let (answer, out, err) = ran(rt.alloc(), line, QUAD, Streams { input, ..ALL_WELL })?;
            // The source is read in five pieces, and once more at its end.
            if fails == 7 {
                assert!(rt; matches!(answer, Answer::Done));
                continue;
            }
            assert!(rt; matches!(answer, Answer::ReadFault));
            assert_eq!(rt; out.taken(), b"".as_slice());
            assert_eq!(rt; err.taken(), b"quadq: read fault\n".as_slice());
        }
    }
    Ok(())
}

#[test]
fn each_fault_of_the_sink_leaves_a_prefix(rt: HostRuntime) -> Result<(), Fail> {
    for line in LINES {
        let (_answer, whole, _err) = ran(rt.alloc(), line, QUAD, ALL_WELL)?;
        let calls = whole.taken().len().div_ceil(10) as u64;
        for fails in 1..=calls {
            let out = Ends { step: 10, fails };
            let (answer, out, err) = ran(rt.alloc(), line, QUAD, Streams { out, ..ALL_WELL })?;
            assert!(rt; matches!(answer, Answer::WriteFault));
            assert!(rt; whole.taken().starts_with(out.taken()));
            assert_eq!(rt; out.taken().len() as u64, 10 * (fails - 1));
            assert_eq!(rt; err.taken(), b"quadq: write fault\n".as_slice());
        }
    }
    Ok(())
}

#[test]
fn a_fault_of_the_error_sink_changes_nothing(rt: HostRuntime) -> Result<(), Fail> {
    let place = Place::EdgeTwice {
        from: 0,
        to: 1,
        face1: 0,
        face2: 1,
    };
    let told = b"quadq: edge 1 2: faces 1 and 2\n".as_slice();
    for line in LINES {
        for fails in 0..6 {
            let err = Ends { step: 10, fails };
            let (answer, out, err) = ran(rt.alloc(), line, TWICE, Streams { err, ..ALL_WELL })?;
            assert!(rt; matches!(answer, Answer::NotManifold { place: found } if found == place));
            assert_eq!(rt; answer.status(), 7);
            assert_eq!(rt; out.taken(), b"".as_slice());
            assert!(rt; told.starts_with(err.taken()));
        }
    }
    Ok(())
}

/// Four faces, with a marked edge.
const MARKED: &[u8] =
    b"v 0 0 0\nv 1 0 0\nv 2 0 0\nv 0 1 0\nv 1 1 0\nv 2 1 0\nv 0 2 0\nv 1 2 0\nv 2 2 0\n\
    f 1 2 5 4\nf 2 3 6 5\nf 4 5 8 7\nf 5 6 9 8\nl 4 5\n";

/// Lines of `fit`, and the command that each is but for its head line.
const POINTS: [(&str, &str); 4] = [
    (
        "fit --keep none --patches traced --aim scale:3/2 --floor 1 --weight length --spacing even",
        "remesh --scale 3/2 --floor 1 --weight length",
    ),
    (
        "fit --keep lines --patches traced --aim scale:3/2 --floor 1 --weight plain --spacing even",
        "crease --scale 3/2 --floor 1 --weight plain",
    ),
    (
        "fit --keep none --patches merged --aim scale:3/2 --floor 2 --weight plain --spacing even",
        "coarse --scale 3/2 --floor 2 --weight plain",
    ),
    (
        "fit --keep none --patches traced --aim edge:0.4 --floor 1 --weight plain --spacing even",
        "size --edge 0.4 --floor 1",
    ),
];

/// What stands behind the first line of a text.
fn behind_head(text: &[u8]) -> &[u8] {
    match text.iter().position(|byte| *byte == b'\n') {
        Some(end) => &text[end + 1..],
        None => text,
    }
}

#[test]
fn other_commands_are_points_of_fit(rt: HostRuntime) -> Result<(), Fail> {
    for (fit, command) in POINTS {
        let (answer, out, err) = ran(rt.alloc(), fit, MARKED, ALL_WELL)?;
        let (_answer, other, _err) = ran(rt.alloc(), command, MARKED, ALL_WELL)?;
        assert!(rt; matches!(answer, Answer::Done));
        assert_eq!(rt; behind_head(out.taken()), behind_head(other.taken()));
        assert_eq!(rt; err.taken(), b"".as_slice());
    }
    Ok(())
}

#[test]
fn other_commands_refuse_as_fit_does(rt: HostRuntime) -> Result<(), Fail> {
    for (fit, command) in POINTS {
        let (answer, out, err) = ran(rt.alloc(), fit, TWICE, ALL_WELL)?;
        let (other, _out, told) = ran(rt.alloc(), command, TWICE, ALL_WELL)?;
        assert_eq!(rt; answer.status(), other.status());
        assert_eq!(rt; err.taken(), told.taken());
        assert_eq!(rt; out.taken(), b"".as_slice());
    }
    Ok(())
}

/// Texts, the options of `fit` for them, and the places of the new points that these wish, worked by hand.
const SPACED: [(&[u8], &str, &[u8]); 3] = [
    // An arc with the shares 500, 1500 and 0, and one without any, in two new edges each.
    (
        b"v 0 0 0\nv 1 0 0\nv 2 0 0\nv 3 0 0\nv 0 1 0\nv 1 1 0\nv 2 1 0\nv 3 1 0\n\
        f 1 2 6 5\nf 2 3 7 6\nf 3 4 8 7\n\
        #w 1 2 500\n#w 2 3 1500\n#w 3 4 0\n#w 5 6 0\n#w 6 7 0\n#w 8 7 0\n",
        "--keep none --aim lines --floor 2",
        b"v 0 0 0\nv 3 0 0\nv 0 1 0\nv 3 1 0\nv 1.333333 0 0\nv 1.5 1 0\nv 0 0.5 0\nv 3 0.5 0\n\
        v 1.416667 0.5 0\nf 1 5 9 7\n",
    ),
    // An arc with the shares 1500 and 500 between two patches, one of which uses it against its direction.
    (
        b"v 0 0 0\nv 1 0 0\nv 2 0 0\nv 0 1 0\nv 1 1 0\nv 2 1 0\nv 0 2 0\nv 1 2 0\nv 2 2 0\n\
        f 1 2 5 4\nf 2 3 6 5\nf 4 5 8 7\nf 5 6 9 8\nl 4 5 6\n#w 4 5 500\n#w 6 5 1500\n",
        "--keep lines --aim lines --floor 2",
        b"v 0 0 0\nv 2 0 0\nv 0 1 0\nv 2 1 0\nv 0 2 0\nv 2 2 0\nv 1 0 0\nv 1.333333 1 0\n\
        v 0 0.5 0\nv 2 0.5 0\nv 1 2 0\nv 0 1.5 0\nv 2 1.5 0\nv 1.166667 0.5 0\nv 1.166667 1.5 0\n\
        f 1 7 14 9\n",
    ),
    // Edges of one length in space, where old edges have the lengths 1 and 2.
    (
        b"v 0 0 0\nv 1 0 0\nv 3 0 0\nv 0 1 0\nv 1 1 0\nv 3 1 0\nf 1 2 5 4\nf 2 3 6 5\n",
        "--keep none --aim edge:1 --floor 1",
        b"v 0 0 0\nv 3 0 0\nv 0 1 0\nv 3 1 0\nv 1 0 0\nv 2 0 0\nv 2 1 0\nv 1 1 0\nf 1 5 8 3\n",
    ),
];

#[test]
fn points_stand_where_they_are_wished(rt: HostRuntime) -> Result<(), Fail> {
    let alloc = rt.alloc();
    for (text, options, wanted) in SPACED {
        let line = format!(in alloc;
            "fit {options} --patches traced --weight plain --spacing wished"
        )?;
        let (answer, out, err) = ran(alloc, &line, text, ALL_WELL)?;
        assert!(rt; matches!(answer, Answer::Done));
        assert!(rt; behind_head(out.taken()).starts_with(wanted));
        assert_eq!(rt; err.taken(), b"".as_slice());
    }
    Ok(())
}

/// An environment in memory, with the program's name first.
#[derive(Drop)]
struct Given<'a> {
    words: &'a [&'a [u8]],
}

impl Env for Given<'_> {
    fn arg(&self, i: usize, buf: &mut [u8]) -> Result<usize, FillError> {
        let Some(word) = self.words.get(i) else {
            return Err(FillError::NotPresent);
        };
        if word.len() > buf.len() {
            return Err(FillError::TooLong);
        }
        buf[..word.len()].copy_from_slice(word);
        Ok(word.len())
    }

    fn var(&self, _name: &str, _buf: &mut [u8]) -> Result<usize, FillError> {
        Err(FillError::NotPresent)
    }

    fn var_at(&self, _i: usize, _buf: &mut [u8]) -> Result<usize, FillError> {
        Err(FillError::NotPresent)
    }
}

/// The exit status of a process with these words, whose output must be empty where it is not 0.
fn exit_of(rt: &impl Abort, alloc: Global, words: &[&[u8]]) -> Result<u8, Memory> {
    let line = ProcessLine::new(Given { words });
    let (mut input, mut out, mut err) = (
        source(alloc, QUAD, WELL)?,
        sink(alloc, WELL)?,
        sink(alloc, WELL)?,
    );
    let status = run_process(alloc, &line, &mut input, &mut out, &mut err);
    assert_eq!(rt; out.taken().is_empty(), status != 0);
    Ok(status)
}

static LONG: [u8; 300] = [b'x'; 300];

#[test]
fn words_of_a_process_may_be_any_bytes(rt: HostRuntime) -> Result<(), Fail> {
    let alloc = rt.alloc();
    assert_eq!(rt; exit_of(&rt, alloc, &[b"quadq", b"tidy"])?, 0);
    assert_eq!(rt; exit_of(&rt, alloc, &[b"\xff", b"tidy"])?, 0);
    assert_eq!(rt; exit_of(&rt, alloc, &[b"quadq"])?, 2);
    assert_eq!(rt; exit_of(&rt, alloc, &[])?, 2);
    assert_eq!(rt; exit_of(&rt, alloc, &[b"quadq", b"tidy", b""])?, 2);
    assert_eq!(rt; exit_of(&rt, alloc, &[b"quadq", b"\xfftidy"])?, 2);
    assert_eq!(rt; exit_of(&rt, alloc, &[b"quadq", b"tidy", &LONG])?, 2);
    Ok(())
}
