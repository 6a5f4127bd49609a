//! What the program says of words.

use super::call;
use super::called::{Called, expect_calls};
use bn_types::Status;

/// Words that are no command line.
const REFUSED: [&str; 23] = [
    "",
    "run",
    "run a.img --steps 5 --steps 5",
    "run --steps=007 a.img",
    "run a.img --harts 5",
    "run a.img --harts 0",
    "walk a.img",
    "run a.img b.img",
    "run a.img ",
    "run -a.img",
    "run a.img --steps",
    "run a.img --steps +5",
    "run a.img --ram 15",
    "run a.img --ram 4097",
    "run a.img --script",
    "run a.img --script=",
    "run a.img --move 5",
    "run a.img --help",
    "gen",
    "gen 18446744073709551616",
    "gen 01",
    "gen 1 2",
    "gen 1 --store",
];

/// Words in other orders and spellings.
const ACCEPTED: [Called<'static>; 10] = [
    // the store of a new machine, with and without a file
    Called {
        words: "run --ram 16 --store a.img",
        script: "",
        status: Status::Ended,
        text: "out 2 0 41\n\
            end 5 shutdown 48d90c977b53ec20b07888c1bdf036d118b09f1de941f94e52b090b174aa4048\n",
    },
    Called {
        words: "run b.img --store --script t",
        script: "",
        status: Status::NoFile,
        text: "missing image\n",
    },
    Called {
        words: "run a.img --ram=16 --steps=5",
        script: "",
        status: Status::Ended,
        text: "out 2 0 41\n\
            end 5 shutdown 48d90c977b53ec20b07888c1bdf036d118b09f1de941f94e52b090b174aa4048\n",
    },
    Called {
        words: "run --ram 16 --steps 5 -- a.img",
        script: "",
        status: Status::Ended,
        text: "out 2 0 41\n\
            end 5 shutdown 48d90c977b53ec20b07888c1bdf036d118b09f1de941f94e52b090b174aa4048\n",
    },
    Called {
        words: "run --ram 16 a.img --",
        script: "",
        status: Status::Ended,
        text: "out 2 0 41\n\
            end 5 shutdown 48d90c977b53ec20b07888c1bdf036d118b09f1de941f94e52b090b174aa4048\n",
    },
    Called {
        words: "run --steps=4 --harts=1 --ram=16 a.img",
        script: "",
        status: Status::Limit,
        text: "out 2 0 41\n\
            end 4 limit 48d90c977b53ec20b07888c1bdf036d118b09f1de941f94e52b090b174aa4048\n",
    },
    // behind `--` each word is plain
    Called {
        words: "run -- --steps",
        script: "",
        status: Status::NoFile,
        text: "missing image\n",
    },
    Called {
        words: "run a.img --script -",
        script: "",
        status: Status::NoFile,
        text: "missing script\n",
    },
    Called {
        words: "run a.img --script=--store",
        script: "",
        status: Status::NoFile,
        text: "missing script\n",
    },
    Called {
        words: "run -",
        script: "",
        status: Status::NoFile,
        text: "missing image\n",
    },
];

#[test]
fn other_words_are_no_command_line(rt: HostRuntime) {
    for words in REFUSED {
        let called = Called {
            words,
            script: "",
            status: Status::Words,
            text: "words\n",
        };
        expect_calls(&rt, rt.alloc(), &[called]);
    }
}

#[test]
fn words_stand_in_any_order(rt: HostRuntime) {
    expect_calls(&rt, rt.alloc(), &ACCEPTED);
}

#[test]
fn no_words_are_no_command_line(rt: HostRuntime) {
    let status = call(&rt, rt.alloc(), &[], &[], &["words\n"]);
    assert_eq!(rt; status, Status::Words);
}
