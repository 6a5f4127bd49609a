use crate::run_order_ref::RunOrderRef;
use crate::{Order, RunOrder, WordsError, read_words};
use bn_types::ModId;
use std::alloc::{AllocError, Global};
use std::test::Fail;

// What `run a.img` orders.
const PLAIN: RunOrderRef<'static> = RunOrderRef {
    image: "a.img",
    ram_pages: 1024,
    harts: 1,
    steps: 1_000_000,
    script: None,
    store: false,
    blind: None,
    moves: 0,
};

// Command lines of `run`, with a space between the words, and what they order.
static RUNS: [(&str, RunOrderRef<'static>); 21] = [
    ("run a.img", PLAIN),
    (
        "run a.img --ram 16 --harts 4 --steps 0 --script s.txt --store --blind 1@0",
        RunOrderRef {
            image: "a.img",
            ram_pages: 16,
            harts: 4,
            steps: 0,
            script: Some("s.txt"),
            store: true,
            blind: Some((ModId(1), 0)),
            moves: 0,
        },
    ),
    (
        "run --blind=65535@1000000000 --store --script=s --steps=1000000000 \
         --harts=3 --ram=4096 b.img",
        RunOrderRef {
            image: "b.img",
            ram_pages: 4096,
            harts: 3,
            steps: 1_000_000_000,
            script: Some("s"),
            store: true,
            blind: Some((ModId(65_535), 1_000_000_000)),
            moves: 0,
        },
    ),
    (
        "run --ram 17 a.img --harts=2",
        RunOrderRef {
            ram_pages: 17,
            harts: 2,
            ..PLAIN
        },
    ),
    (
        "run --store a.img",
        RunOrderRef {
            store: true,
            ..PLAIN
        },
    ),
    (
        "run a.img --blind 2@3",
        RunOrderRef {
            blind: Some((ModId(2), 3)),
            ..PLAIN
        },
    ),
    ("run a.img --steps 10", RunOrderRef { steps: 10, ..PLAIN }),
    // a lone `-` is a word like others
    (
        "run -",
        RunOrderRef {
            image: "-",
            ..PLAIN
        },
    ),
    (
        "run a.img --script -",
        RunOrderRef {
            script: Some("-"),
            ..PLAIN
        },
    ),
    // a value in the same word may begin with `-`, and goes to the word's end
    (
        "run a.img --script=-",
        RunOrderRef {
            script: Some("-"),
            ..PLAIN
        },
    ),
    (
        "run a.img --script=--steps",
        RunOrderRef {
            script: Some("--steps"),
            ..PLAIN
        },
    ),
    (
        "run a.img --script=a=b",
        RunOrderRef {
            script: Some("a=b"),
            ..PLAIN
        },
    ),
    (
        "run a.img --script==",
        RunOrderRef {
            script: Some("="),
            ..PLAIN
        },
    ),
    (
        "run a.img --script a=b",
        RunOrderRef {
            script: Some("a=b"),
            ..PLAIN
        },
    ),
    (
        "run a=b",
        RunOrderRef {
            image: "a=b",
            ..PLAIN
        },
    ),
    // after the first `--` every word is plain
    ("run a.img --", PLAIN),
    ("run --steps=5 -- a.img", RunOrderRef { steps: 5, ..PLAIN }),
    (
        "run -- --steps",
        RunOrderRef {
            image: "--steps",
            ..PLAIN
        },
    ),
    (
        "run -- -h",
        RunOrderRef {
            image: "-h",
            ..PLAIN
        },
    ),
    (
        "run -- --",
        RunOrderRef {
            image: "--",
            ..PLAIN
        },
    ),
    (
        "run é√ --script=é",
        RunOrderRef {
            image: "é√",
            script: Some("é"),
            ..PLAIN
        },
    ),
];

static NUMBERS: [(&str, u64); 5] = [
    ("gen 0", 0),
    ("gen 10", 10),
    ("gen 18446744073709551615", u64::MAX),
    ("gen 7 --", 7),
    ("gen -- 7", 7),
];

// Words that are no command line. Where two spaces meet, and at an end, a word is empty.
static REFUSED: [&str; 104] = [
    // the first word
    "",
    "walk a.img",
    "Run a.img",
    "ru a.img",
    "runs a.img",
    "run=a.img",
    "a.img run",
    "--store run a.img",
    "-- run a.img",
    // plain words
    "run",
    "run --store",
    "run --",
    "run a.img b.img",
    "run a.img -- b.img",
    "run -- a.img b.img",
    "run ",
    "run  a.img",
    "run a.img ",
    "run -- ",
    // options that come twice
    "run a.img --steps 5 --steps 5",
    "run --ram 16 a.img --ram=16",
    "run a.img --harts=1 --harts=1",
    "run a.img --script s --script s",
    "run a.img --store --store",
    "run a.img --blind 1@0 --blind=1@0",
    // values that are missing, or empty
    "run a.img --steps",
    "run a.img --steps=",
    "run a.img --steps ",
    "run a.img --script",
    "run a.img --script=",
    "run a.img --script ",
    "run a.img --blind=",
    "run --steps a.img",
    // in a word of its own no value begins with `-`, unless it is `-`
    "run a.img --steps -5",
    "run a.img --steps --",
    "run a.img --steps -- 5",
    "run a.img --script -s",
    "run a.img --script --",
    "run a.img --script --store",
    "run a.img --script --script=s",
    "run a.img --blind -1@0",
    // a value where none is taken
    "run a.img --store=",
    "run a.img --store=1",
    "run a.img --store=true",
    "run a.img --store true",
    // abbreviations and other names
    "run a.img --step 5",
    "run a.img --s",
    "run a.img --stor",
    "run a.img --stores",
    "run a.img --Store",
    "run a.img --move 0",
    "run a.img --move=5",
    "run a.img --moves 5",
    "run a.img --steps5",
    "run a.img --steps:5",
    "run a.img ---steps 5",
    "run a.img -steps 5",
    "run a.img --=5",
    "run a.img --unknown",
    // short options, help and version
    "-h",
    "--help",
    "help",
    "run -h",
    "run --help",
    "run a.img -h",
    "run a.img --help",
    "run a.img --version",
    "run a.img -V",
    "run a.img -s",
    "run a.img -5",
    // words after `--`
    "run a.img -- --store",
    "run a.img -- --steps 5",
    "run -- a.img --steps=5",
    // numbers by their spelling and range
    "run --steps=007 a.img",
    "run a.img --steps=00",
    "run a.img --steps=+5",
    "run a.img --steps=-5",
    "run a.img --steps=0x5",
    "run a.img --steps=5_0",
    "run a.img --steps=٣",
    "run a.img --steps=1000000001",
    "run a.img --steps=18446744073709551616",
    "run a.img --ram=15",
    "run a.img --ram 4097",
    "run a.img --ram=-",
    "run a.img --harts 0",
    "run a.img --harts 5",
    // M@K
    "run a.img --blind 0@5",
    "run a.img --blind 65536@5",
    "run a.img --blind 1@1000000001",
    "run a.img --blind 1",
    "run a.img --blind 1@",
    "run a.img --blind @1",
    "run a.img --blind 1@2@3",
    "run a.img --blind 01@2",
    "run a.img --blind 1@+2",
    // gen
    "gen",
    "gen 5 6",
    "gen -1",
    "gen -- -1",
    "gen 01",
    "gen 18446744073709551616",
    "gen 5 --steps 5",
    "gen 5 --store",
];

static NO_TEXTS: [&[u8]; 5] = [b"\xff", b"a\x80", b"\xc3", b"\xc0\x80", b"\xed\xa0\x80"];

/// The words of a text, between its spaces.
pub fn words_in(alloc: Global, text: &str) -> Result<Vec<Vec<u8>>, AllocError> {
    let mut words: Vec<Vec<u8>> = Vec::new(alloc);
    for word in text.split(' ') {
        add_word(alloc, &mut words, &[], word.as_bytes())?;
    }
    Ok(words)
}

// Adds a word of two parts.
fn add_word(
    alloc: Global,
    words: &mut Vec<Vec<u8>>,
    first: &[u8],
    second: &[u8],
) -> Result<(), AllocError> {
    let mut word = Vec::new(alloc);
    word.extend_from_slice(first)?;
    word.extend_from_slice(second)?;
    words.push(word)?;
    Ok(())
}

fn is_run(run: &RunOrder, wanted: &RunOrderRef<'_>) -> bool {
    let script = match &run.script {
        Some(script) => Some(script.as_str()),
        None => None,
    };
    run.image.as_str() == wanted.image
        && run.ram_pages == wanted.ram_pages
        && run.harts == wanted.harts
        && run.steps == wanted.steps
        && script == wanted.script
        && run.store == wanted.store
        && run.blind == wanted.blind
        && run.moves == wanted.moves
}

#[test]
fn runs_are_ordered(rt: HostRuntime) -> Result<(), Fail> {
    for (text, wanted) in &RUNS {
        let words = words_in(rt.alloc(), text)?;
        match read_words(rt.alloc(), words.as_slice()) {
            Ok(Order::Run(run)) => assert!(rt; is_run(&run, wanted), "{text}"),
            _ => assert!(rt; false, "{text}"),
        }
    }
    Ok(())
}

#[test]
fn numbers_are_ordered(rt: HostRuntime) -> Result<(), Fail> {
    for (text, wanted) in &NUMBERS {
        let words = words_in(rt.alloc(), text)?;
        match read_words(rt.alloc(), words.as_slice()) {
            Ok(Order::Gen(number)) => assert_eq!(rt; number, *wanted, "{text}"),
            _ => assert!(rt; false, "{text}"),
        }
    }
    Ok(())
}

#[test]
fn other_words_are_refused(rt: HostRuntime) -> Result<(), Fail> {
    assert!(rt; is_refused(rt.alloc(), &[]));
    for text in &REFUSED {
        let words = words_in(rt.alloc(), text)?;
        assert!(rt; is_refused(rt.alloc(), words.as_slice()), "{text}");
    }
    Ok(())
}

fn is_refused(alloc: Global, words: &[Vec<u8>]) -> bool {
    matches!(read_words(alloc, words), Err(WordsError::Words))
}

#[test]
fn words_that_are_no_texts_are_refused(rt: HostRuntime) -> Result<(), Fail> {
    for bytes in &NO_TEXTS {
        let mut image = words_in(rt.alloc(), "run")?;
        add_word(rt.alloc(), &mut image, &[], bytes)?;
        assert!(rt; is_refused(rt.alloc(), image.as_slice()));
        let mut script = words_in(rt.alloc(), "run a.img")?;
        add_word(rt.alloc(), &mut script, b"--script=", bytes)?;
        assert!(rt; is_refused(rt.alloc(), script.as_slice()));
        let mut value = words_in(rt.alloc(), "run a.img --script")?;
        add_word(rt.alloc(), &mut value, &[], bytes)?;
        assert!(rt; is_refused(rt.alloc(), value.as_slice()));
    }
    Ok(())
}
