use crate::{Script, ScriptError, ScriptFault, ScriptSort, read};
use bn_types::{Event, Gpn};
use std::alloc::{AllocError, Global};
use std::test::Fail;

const MOST_PAGE: Gpn = Gpn(u32::MAX);

// Faulty scripts of a machine of one hart, with the first bad line and what is wrong there.
static FAULTY: [(&str, u32, ScriptSort); 38] = [
    ("turn 0 1\nturn 1 1\n", 2, ScriptSort::Range),
    ("poke 0 4096 00", 1, ScriptSort::Range),
    ("peek 0", 1, ScriptSort::Fields),
    ("turn 0 01", 1, ScriptSort::Number),
    ("jump 3", 1, ScriptSort::Word),
    ("\n# no\n go 1\njump 3\n", 3, ScriptSort::Word),
    ("go 0\njump 3\n", 1, ScriptSort::Range),
    ("Go 1", 1, ScriptSort::Word),
    ("jump", 1, ScriptSort::Word),
    (" ", 1, ScriptSort::Word),
    ("go", 1, ScriptSort::Fields),
    ("go 1 ", 1, ScriptSort::Fields),
    ("go  1", 1, ScriptSort::Fields),
    ("turn 9", 1, ScriptSort::Fields),
    ("turn 9 1 1", 1, ScriptSort::Fields),
    ("turn 01", 1, ScriptSort::Fields),
    ("poke 0 4096", 1, ScriptSort::Fields),
    ("key 41 41", 1, ScriptSort::Fields),
    ("peek 0 0 00", 1, ScriptSort::Fields),
    ("go ", 1, ScriptSort::Number),
    ("go +1", 1, ScriptSort::Number),
    ("go 1\r\n", 1, ScriptSort::Number),
    ("go 10000000000", 1, ScriptSort::Number),
    ("turn 9 0x", 1, ScriptSort::Number),
    ("key 4A", 1, ScriptSort::Number),
    ("key 041", 1, ScriptSort::Number),
    ("key 4", 1, ScriptSort::Number),
    ("poke 4294967296 0 zz", 1, ScriptSort::Number),
    ("peek 4294967296 00", 1, ScriptSort::Number),
    ("go 0", 1, ScriptSort::Range),
    ("go 1000000001", 1, ScriptSort::Range),
    ("go 9999999999", 1, ScriptSort::Range),
    ("turn 1 1", 1, ScriptSort::Range),
    ("turn 0 0", 1, ScriptSort::Range),
    ("turn 0 1000000001", 1, ScriptSort::Range),
    ("poke 4294967296 0 00", 1, ScriptSort::Range),
    ("peek 4294967296 0", 1, ScriptSort::Range),
    ("peek 0 4096", 1, ScriptSort::Range),
];

// Scripts of a machine of four harts, with their first four events.
static ORDERED: [(&str, [Event; 4]); 8] = [
    (
        "",
        [
            Event::Turn(0),
            Event::Turn(1),
            Event::Turn(2),
            Event::Turn(3),
        ],
    ),
    (
        "\n# go 2\n#\n",
        [
            Event::Turn(0),
            Event::Turn(1),
            Event::Turn(2),
            Event::Turn(3),
        ],
    ),
    (
        "turn 0 2\nkey 41\nturn 0 1\n",
        [
            Event::Turn(0),
            Event::Turn(0),
            Event::Key(0x41),
            Event::Turn(0),
        ],
    ),
    (
        "poke 5 0 7f\npeek 5 0\npeek 2000 0",
        [
            Event::Poke(Gpn(5), 0, 0x7f),
            Event::Peek(Gpn(5), 0),
            Event::Peek(Gpn(2000), 0),
            Event::Turn(0),
        ],
    ),
    (
        "turn 0 1\nkey 00\npoke 0 0 00\npeek 0 0",
        [
            Event::Turn(0),
            Event::Key(0),
            Event::Poke(Gpn(0), 0, 0),
            Event::Peek(Gpn(0), 0),
        ],
    ),
    (
        "turn 3 1\nkey ff\npoke 4294967295 4095 ff\npeek 4294967295 4095\n",
        [
            Event::Turn(3),
            Event::Key(0xff),
            Event::Poke(MOST_PAGE, 4095, 0xff),
            Event::Peek(MOST_PAGE, 4095),
        ],
    ),
    (
        "go 3\ngo 1",
        [
            Event::Turn(0),
            Event::Turn(1),
            Event::Turn(2),
            Event::Turn(0),
        ],
    ),
    (
        "go 1\nturn 3 1000000000\n",
        [
            Event::Turn(0),
            Event::Turn(3),
            Event::Turn(3),
            Event::Turn(3),
        ],
    ),
];

// The line and the sort of a fault.
fn fault_of(alloc: Global, text: &[u8]) -> Option<(u32, ScriptSort)> {
    match read(alloc, text, 1) {
        Err(ScriptError::Fault(ScriptFault { line, sort })) => Some((line, sort)),
        _ => None,
    }
}

fn next_four(script: &mut Script) -> [Event; 4] {
    let first = script.next_event();
    let second = script.next_event();
    let third = script.next_event();
    [first, second, third, script.next_event()]
}

#[test]
fn the_first_bad_line_is_told(rt: HostRuntime) -> Result<(), Fail> {
    for (text, line, sort) in &FAULTY {
        assert_eq!(rt;
            fault_of(rt.alloc(), text.as_bytes()),
            Some((*line, *sort)),
            "{text}"
        );
    }
    Ok(())
}

#[test]
fn events_come_in_order(rt: HostRuntime) -> Result<(), Fail> {
    for (text, events) in &ORDERED {
        let mut script = read(rt.alloc(), text.as_bytes(), 4)?;
        assert_eq!(rt; next_four(&mut script), *events, "{text}");
    }
    Ok(())
}

#[test]
fn events_never_end(rt: HostRuntime) -> Result<(), Fail> {
    let text = b"turn 1 2\n\n# go\nkey 41\ngo 3\ngo 1\npeek 7 9";
    let mut script = read(rt.alloc(), text, 2)?;
    assert_eq!(rt;
        next_four(&mut script),
        [
            Event::Turn(1),
            Event::Turn(1),
            Event::Key(0x41),
            Event::Turn(0)
        ]
    );
    assert_eq!(rt;
        next_four(&mut script),
        [
            Event::Turn(1),
            Event::Turn(0),
            Event::Turn(0),
            Event::Peek(Gpn(7), 9)
        ]
    );
    for _ in 0..3 {
        assert_eq!(rt;
            next_four(&mut script),
            [
                Event::Turn(0),
                Event::Turn(1),
                Event::Turn(0),
                Event::Turn(1)
            ]
        );
    }
    Ok(())
}

#[test]
fn a_harts_turns_alone_come_before_all_harts_turns(rt: HostRuntime) -> Result<(), Fail> {
    let mut script = read(rt.alloc(), b"turn 1 3", 2)?;
    assert_eq!(rt;
        next_four(&mut script),
        [
            Event::Turn(1),
            Event::Turn(1),
            Event::Turn(1),
            Event::Turn(0)
        ]
    );
    Ok(())
}

// So many bytes of a comment.
fn comment(alloc: Global, len: usize) -> Result<Vec<u8>, AllocError> {
    let mut text = Vec::new(alloc);
    text.resize(len, b'#')?;
    Ok(text)
}

#[test]
fn the_longest_script_is_read(rt: HostRuntime) -> Result<(), Fail> {
    let alloc = rt.alloc();
    let longest = comment(alloc, 1_048_576)?;
    assert_eq!(rt; fault_of(alloc, longest.as_slice()), None);
    let longer = comment(alloc, 1_048_577)?;
    assert_eq!(rt;
        fault_of(alloc, longer.as_slice()),
        Some((0, ScriptSort::Long))
    );
    Ok(())
}

#[test]
fn many_turns_take_no_memory(rt: HostRuntime) -> Result<(), Fail> {
    let mut script = read(rt.alloc(), b"turn 0 1000000000\ngo 1000000000", 4)?;
    assert_eq!(rt; next_four(&mut script), [Event::Turn(0); 4]);
    assert_eq!(rt; next_four(&mut script), [Event::Turn(0); 4]);
    Ok(())
}
