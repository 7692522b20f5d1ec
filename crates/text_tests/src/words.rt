//! Lines as a shell hands them over.

use def_fit::{Aim, Fit, Keep, Patches, Spacing};
use def_flow::{Settings, Weight};
use def_run::{Command, WordsFail};
use def_text::Micro;
use qm_words::read_words;
use std::alloc::{AllocError, Global};
use std::test::Fail;

const HALF: Settings = Settings {
    p: 1,
    q: 2,
    floor: 1,
    weight: Weight::Plain,
};

const WHOLE: Settings = Settings {
    p: 2,
    q: 4,
    floor: 3,
    weight: Weight::Length,
};

/// The cut that keeps lines, with lengths as the lines wish, and points where they wish them.
const LINES: Fit = Fit {
    keep: Keep::Lines,
    patches: Patches::Conforming,
    aim: Aim::Wishes,
    floor: 2,
    auto: false,
    weight: Weight::Length,
    spacing: Spacing::Wished,
};

/// Merged patches with lengths as the lines wish, whose floors rise by need.
const CHOSEN: Fit = Fit {
    keep: Keep::Nothing,
    patches: Patches::Merged,
    aim: Aim::Wishes,
    floor: 1,
    auto: true,
    weight: Weight::Plain,
    spacing: Spacing::Even,
};

/// No command.
const NONE: Result<Command, WordsFail> = Err(WordsFail::Usage);

/// Lines with the commands that they are, and those that are none.
const CASES: [(&str, Result<Command, WordsFail>); 52] = [
    ("tidy", Ok(Command::Tidy)),
    ("graph", Ok(Command::Graph)),
    ("check", Ok(Command::Check)),
    ("refine --by=1000", Ok(Command::Refine { by: 1000 })),
    ("bench --size 10000", Ok(Command::Bench { size: 10_000 })),
    (
        "size --edge +50e-2 --floor=3",
        Ok(Command::Size {
            edge: Micro { n: 500_000 },
            floor: 3,
        }),
    ),
    (
        "remesh --scale=1/2 --weight plain --floor 1",
        Ok(Command::Remesh {
            settings: HALF,
            auto: false,
        }),
    ),
    (
        "remesh --floor auto --scale 1/2 --weight=plain",
        Ok(Command::Remesh {
            settings: HALF,
            auto: true,
        }),
    ),
    (
        "remesh --weight length --floor=3 --scale 2/4",
        Ok(Command::Remesh {
            settings: WHOLE,
            auto: false,
        }),
    ),
    (
        "crease --floor 3 --scale=2/4 --weight length",
        Ok(Command::Crease { settings: WHOLE }),
    ),
    (
        "coarse --weight=length --scale 2/4 --floor 3",
        Ok(Command::Coarse { settings: WHOLE }),
    ),
    ("blocks --by 7", Ok(Command::Blocks { by: 7 })),
    ("map", Ok(Command::Map)),
    (
        "fit --keep lines --patches conforming --aim lines --floor 2 --weight length --spacing wished",
        Ok(Command::Fit { fit: LINES }),
    ),
    (
        "fit --spacing=even --aim=scale:2/4 --weight=plain --floor=1 --patches merged --keep none",
        Ok(Command::Fit {
            fit: Fit {
                keep: Keep::Nothing,
                patches: Patches::Merged,
                aim: Aim::Scale { p: 2, q: 4 },
                floor: 1,
                auto: false,
                weight: Weight::Plain,
                spacing: Spacing::Even,
            },
        }),
    ),
    (
        "fit --aim edge:+50e-2 --keep=none --patches=traced --floor 3 --weight plain --spacing even",
        Ok(Command::Fit {
            fit: Fit {
                keep: Keep::Nothing,
                patches: Patches::Traced,
                aim: Aim::Edge {
                    edge: Micro { n: 500_000 },
                },
                floor: 3,
                auto: false,
                weight: Weight::Plain,
                spacing: Spacing::Even,
            },
        }),
    ),
    (
        "fit --keep none --patches merged --aim lines --floor auto --weight plain --spacing even",
        Ok(Command::Fit { fit: CHOSEN }),
    ),
    (
        "fit --floor=auto --spacing even --keep none --weight=plain --patches merged --aim lines",
        Ok(Command::Fit { fit: CHOSEN }),
    ),
    ("", NONE),
    ("tidy --", NONE),
    ("--help", NONE),
    ("refine", NONE),
    ("refine --help", NONE),
    ("refine --by 0", NONE),
    ("refine --by 1001", NONE),
    ("refine --by=-3", NONE),
    ("refine --by 2 --by 2", NONE),
    ("refine --by=2 --", NONE),
    ("refine --by 2 more", NONE),
    ("refine --b=2", NONE),
    ("size --edge=0 --floor 1", NONE),
    ("size --edge=-1 --floor 1", NONE),
    ("size --edge 1 --floor auto", NONE),
    ("size --edge 1000000000 --floor 1", NONE),
    ("remesh --scale 1/2 --floor 1", NONE),
    ("remesh --scale 0/2 --floor 1 --weight plain", NONE),
    ("remesh --scale 01/2 --floor 1 --weight plain", NONE),
    ("remesh --scale 1/2 --floor 4 --weight plain", NONE),
    ("crease --floor auto --scale=2/4 --weight length", NONE),
    ("coarse --weight length --scale 2/4 --floor auto", NONE),
    ("blocks --by=0", NONE),
    (
        "fit --keep lines --patches conforming --aim lines --floor 2 --weight length",
        NONE,
    ),
    (
        "fit --keep line --patches traced --aim lines --floor 1 --weight plain --spacing even",
        NONE,
    ),
    (
        "fit --keep none --patches trace --aim lines --floor 1 --weight plain --spacing even",
        NONE,
    ),
    (
        "fit --keep none --patches traced --aim wishes --floor 1 --weight plain --spacing even",
        NONE,
    ),
    (
        "fit --keep none --patches traced --aim scale:1001/1 --floor 1 --weight plain --spacing even",
        NONE,
    ),
    (
        "fit --keep none --patches traced --aim scale:1 --floor 1 --weight plain --spacing even",
        NONE,
    ),
    (
        "fit --keep none --patches traced --aim edge: --floor 1 --weight plain --spacing even",
        NONE,
    ),
    (
        "fit --keep none --patches traced --aim edge:0.0000004 --floor 1 --weight plain --spacing even",
        NONE,
    ),
    (
        "fit --keep none --patches traced --aim edge:1000000000 --floor 1 --weight plain --spacing even",
        NONE,
    ),
    (
        "fit --keep none --patches traced --aim lines --floor 4 --weight plain --spacing even",
        NONE,
    ),
    (
        "fit --keep none --patches traced --aim lines --floor 1 --weight plain --spacing wishes",
        NONE,
    ),
];

/// What the words of a line are read as.
fn read_line(alloc: Global, line: &str) -> Result<Result<Command, WordsFail>, AllocError> {
    let mut words = Vec::new(alloc);
    for word in line.split_whitespace() {
        words.push(word.to_string(alloc)?)?;
    }
    Ok(read_words(alloc, &words))
}

#[test]
fn lines_have_their_commands(rt: HostRuntime) -> Result<(), Fail> {
    for (line, wanted) in CASES {
        assert_eq!(rt; read_line(rt.alloc(), line)?, wanted);
    }
    Ok(())
}
