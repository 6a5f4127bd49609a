//! Runs that are ordered by a script. Each digest comes from another program.

use super::called::{Called, expect_calls};
use super::{HELLO, bytes_of_code, call, desk_of, words_of};
use crate::bastion;
use bn_edge::{MemChip, MemSink, MemVault};
use bn_types::Status;
use std::alloc::{AllocError, Global};
use std::process::Abort;

const ORDERED: [Called<'static>; 11] = [
    // a key is an event among others
    Called {
        words: "run a.img --ram 16 --script s",
        script: "turn 0 2\nkey 41\nturn 0 1\n",
        status: Status::Ended,
        text: "key 2 41\nout 3 0 41\n\
            end 6 shutdown 48d90c977b53ec20b07888c1bdf036d118b09f1de941f94e52b090b174aa4048\n",
    },
    // a hart that isn't started does nothing, and its turns are events
    Called {
        words: "run a.img --ram 16 --harts 2 --steps 4 --script s",
        script: "turn 1 3\n",
        status: Status::Limit,
        text: "end 4 limit 48d90c977b53ec20b07888c1bdf036d118b09f1de941f94e52b090b174aa4048\n",
    },
    // behind the script turns go round, from the first hart on
    Called {
        words: "run a.img --ram 16 --harts 2 --script s",
        script: "turn 1 3\n",
        status: Status::Ended,
        text: "out 7 0 41\n\
            end 12 shutdown 48d90c977b53ec20b07888c1bdf036d118b09f1de941f94e52b090b174aa4048\n",
    },
    Called {
        words: "run a.img --ram 16 --harts 4",
        script: "",
        status: Status::Ended,
        text: "out 8 0 41\n\
            end 17 shutdown 48d90c977b53ec20b07888c1bdf036d118b09f1de941f94e52b090b174aa4048\n",
    },
    // bytes of devices, in RAM and behind it
    Called {
        words: "run a.img --ram 16 --steps 3 --script s",
        script: "poke 5 0 7f\npeek 5 0\npeek 2000 0\n",
        status: Status::Limit,
        text: "poke 0 5 0 7f\npeek 1 5 0 7f\nnopeek 2 2000 0\n\
            end 3 limit bf48a3857aa190ea298eaefd7e33068247eeddc4255ec461894119ad73f42ce9\n",
    },
    // a script may be empty, and its last line may lack its end
    Called {
        words: "run a.img --ram 16 --script e",
        script: "",
        status: Status::Ended,
        text: "out 2 0 41\n\
            end 5 shutdown 48d90c977b53ec20b07888c1bdf036d118b09f1de941f94e52b090b174aa4048\n",
    },
    Called {
        words: "run a.img --ram=16 --script=s",
        script: "# three\n\nkey 00\n\n#\nkey ff",
        status: Status::Ended,
        text: "key 0 00\nkey 1 ff\nout 4 0 41\n\
            end 7 shutdown 48d90c977b53ec20b07888c1bdf036d118b09f1de941f94e52b090b174aa4048\n",
    },
    // the run ends within the script, at its limit or off
    Called {
        words: "run a.img --ram 16 --steps 2 --script s",
        script: "key 41\nkey 42\nkey 43\n",
        status: Status::Limit,
        text: "key 0 41\nkey 1 42\n\
            end 2 limit 48d90c977b53ec20b07888c1bdf036d118b09f1de941f94e52b090b174aa4048\n",
    },
    Called {
        words: "run a.img --ram 16 --steps 0 --script s",
        script: "key 41\n",
        status: Status::Limit,
        text: "end 0 limit 48d90c977b53ec20b07888c1bdf036d118b09f1de941f94e52b090b174aa4048\n",
    },
    Called {
        words: "run a.img --ram 16 --script s",
        script: "go 1000000000\nkey 41\n",
        status: Status::Ended,
        text: "out 2 0 41\n\
            end 5 shutdown 48d90c977b53ec20b07888c1bdf036d118b09f1de941f94e52b090b174aa4048\n",
    },
    Called {
        words: "run a.img --ram 16 --harts 4 --steps 1 --script s",
        script: "turn 3 1000000000\n",
        status: Status::Limit,
        text: "end 1 limit 48d90c977b53ec20b07888c1bdf036d118b09f1de941f94e52b090b174aa4048\n",
    },
];

/// Scripts for one hart that are refused, each with its first bad line.
const REFUSED: [(&str, &str); 50] = [
    ("turn 0 1\nturn 1 1\n", "script range 2\n"),
    ("poke 0 4096 00", "script range 1\n"),
    ("peek 0", "script fields 1\n"),
    ("turn 0 01", "script number 1\n"),
    ("jump 3", "script word 1\n"),
    // the first bad line counts, behind lines that order nothing
    ("#\n\n# turn\njump\npeek 0\n", "script word 4\n"),
    ("key 41\npeek 0\njump\n", "script fields 2\n"),
    // the word
    (" ", "script word 1\n"),
    (" turn 0 1\n", "script word 1\n"),
    (" # no comment\n", "script word 1\n"),
    ("Turn 0 1\n", "script word 1\n"),
    ("turns 0 1\n", "script word 1\n"),
    ("turn\t0 1\n", "script word 1\n"),
    ("\r\n", "script word 1\n"),
    ("end\n", "script word 1\n"),
    // the number of fields
    ("turn\n", "script fields 1\n"),
    ("turn 0\n", "script fields 1\n"),
    ("turn 0 1 \n", "script fields 1\n"),
    ("turn  0 1\n", "script fields 1\n"),
    ("go\n", "script fields 1\n"),
    ("go 1 2\n", "script fields 1\n"),
    ("key\n", "script fields 1\n"),
    ("key 41 41\n", "script fields 1\n"),
    ("poke 0 0\n", "script fields 1\n"),
    ("peek 0 0 0\n", "script fields 1\n"),
    ("go 01 # turns\n", "script fields 1\n"),
    // numbers and bytes by their spelling
    ("go \n", "script number 1\n"),
    ("go +1\n", "script number 1\n"),
    ("go -1\n", "script number 1\n"),
    ("go 1x\n", "script number 1\n"),
    ("go 0x1\n", "script number 1\n"),
    ("go 10000000000\n", "script number 1\n"),
    ("go 1\r\n", "script number 1\n"),
    ("key 4\n", "script number 1\n"),
    ("key 4A\n", "script number 1\n"),
    ("key 041\n", "script number 1\n"),
    ("poke 0 00 00\n", "script number 1\n"),
    ("poke 0 0 0\n", "script number 1\n"),
    // of all fields before the range of any
    ("turn 9 01\n", "script number 1\n"),
    ("poke 4294967296 0 xx\n", "script number 1\n"),
    // their ranges
    ("turn 0 0\n", "script range 1\n"),
    ("turn 0 1000000001\n", "script range 1\n"),
    ("turn 9999999999 1\n", "script range 1\n"),
    ("go 0\n", "script range 1\n"),
    ("go 1000000001\n", "script range 1\n"),
    ("go 4294967297\n", "script range 1\n"),
    ("poke 4294967296 0 00\n", "script range 1\n"),
    ("peek 4294967296 0\n", "script range 1\n"),
    ("peek 0 4096\n", "script range 1\n"),
    ("peek 0 9999999999\n", "script range 1\n"),
];

/// Which of several faults is told.
const FIRST: [Called<'static>; 8] = [
    Called {
        words: "run a.img --script t",
        script: "",
        status: Status::NoFile,
        text: "missing script\n",
    },
    // the image comes before the script
    Called {
        words: "run b.img --script t",
        script: "",
        status: Status::NoFile,
        text: "missing image\n",
    },
    Called {
        words: "run e --script t",
        script: "",
        status: Status::Image,
        text: "image empty 0\n",
    },
    Called {
        words: "run e --script s",
        script: "jump",
        status: Status::Image,
        text: "image empty 0\n",
    },
    // and the words before both
    Called {
        words: "run b.img --script t --harts 5",
        script: "",
        status: Status::Words,
        text: "words\n",
    },
    // an image that is its own script
    Called {
        words: "run a.img --script a.img",
        script: "",
        status: Status::Script,
        text: "script word 1\n",
    },
    Called {
        words: "run s --script s --ram 16 --steps 3",
        script: "key 41\n",
        status: Status::Limit,
        text: "key 0 41\n\
            trap 1 0 0000000000000002 0000000080000000\n\
            trap 2 0 0000000000000001 0000000000000000\n\
            end 3 limit fa195a4fe9cf3fe1edb2a44cbdb37c6298725a47d0ad39560db6290d3124a145\n",
    },
    // the fourth of four harts, and the fifth
    Called {
        words: "run a.img --ram 16 --harts 4 --script s",
        script: "turn 3 1\nturn 4 1\n",
        status: Status::Script,
        text: "script range 2\n",
    },
];

#[test]
fn a_script_orders_events(rt: HostRuntime) {
    expect_calls(&rt, rt.alloc(), &ORDERED);
}

#[test]
fn the_first_bad_line_of_a_script_is_told(rt: HostRuntime) {
    for (script, text) in REFUSED {
        let called = Called {
            words: "run a.img --ram 16 --script s",
            script,
            status: Status::Script,
            text,
        };
        expect_calls(&rt, rt.alloc(), &[called]);
    }
}

#[test]
fn the_first_fault_of_the_files_is_told(rt: HostRuntime) {
    expect_calls(&rt, rt.alloc(), &FIRST);
}

fn comment(alloc: Global, length: usize) -> Result<Vec<u8>, AllocError> {
    let mut text = Vec::new(alloc);
    text.resize(length, b'#')?;
    Ok(text)
}

/// The status and the text of a run with a comment of so many bytes as its script.
fn expect_comment(rt: &impl Abort, alloc: Global, length: usize, status: Status, text: &str) {
    let image = bytes_of_code(alloc, &HELLO).expect(rt, "memory");
    let script = comment(alloc, length).expect(rt, "memory");
    let words = [
        "run", "a.img", "--ram", "16", "--steps", "0", "--script", "s",
    ];
    let files: [(&str, &[u8]); 2] = [("a.img", &image), ("s", &script)];
    let answer = call(rt, alloc, &words, &files, &[text]);
    assert_eq!(rt; answer, status);
}

#[test]
fn a_script_has_a_mebibyte_at_most(rt: HostRuntime) {
    let end = "end 0 limit 48d90c977b53ec20b07888c1bdf036d118b09f1de941f94e52b090b174aa4048\n";
    expect_comment(&rt, rt.alloc(), 1_048_576, Status::Limit, end);
    let long = "script long 0\n";
    expect_comment(&rt, rt.alloc(), 1_048_577, Status::Script, long);
}

/// Calls with a script where these calls of the desk fail.
fn expect_desk_fault(rt: &impl Abort, alloc: Global, fails: &[u64], text: &str) {
    let words = words_of(alloc, &["run", "a.img", "--script", "s"]).expect(rt, "memory");
    let image = bytes_of_code(alloc, &HELLO).expect(rt, "memory");
    let files: [(&str, &[u8]); 2] = [("a.img", &image), ("s", b"jump")];
    let mut desk = desk_of(alloc, &files, fails).expect(rt, "memory");
    let mut out = MemSink::of(alloc, 4096, Vec::new(alloc)).expect(rt, "memory");
    let mut vault = MemVault::of(alloc, b"", b"", Vec::new(alloc)).expect(rt, "memory");
    let mut chip = MemChip::of([0; 32], Vec::new(alloc));
    let status = bastion(alloc, &words, &mut desk, &mut vault, &mut chip, &mut out);
    assert_eq!(rt; status, Status::DeskFault);
    assert_eq!(rt; out.bytes(), text.as_bytes());
}

#[test]
fn a_desk_that_fails_tells_at_which_file(rt: HostRuntime) {
    expect_desk_fault(&rt, rt.alloc(), &[1], "desk image\n");
    expect_desk_fault(&rt, rt.alloc(), &[2], "desk script\n");
    expect_desk_fault(&rt, rt.alloc(), &[1, 2], "desk image\n");
}
