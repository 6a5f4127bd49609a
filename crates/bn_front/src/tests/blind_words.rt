//! The words that have a module zeroed before an event.

use super::HELLO;
use super::top::check_code;
use bn_types::Status;

/// The trace of a guest that launches no module, in a RAM of 16 pages. The digest is SHA-256 of its
/// code and zeros behind it.
const LINES: [&str; 2] = [
    "out 2 0 41\n",
    "end 5 shutdown 48d90c977b53ec20b07888c1bdf036d118b09f1de941f94e52b090b174aa4048\n",
];

#[test]
fn a_module_and_an_event_are_ordered(rt: HostRuntime) {
    let cases: [&[&str]; 9] = [
        &["run", "a.img", "--ram", "16", "--blind", "1@0"],
        &["run", "a.img", "--ram", "16", "--blind", "1@4"],
        &["run", "a.img", "--ram", "16", "--blind", "1@5"],
        &["run", "a.img", "--ram", "16", "--blind", "10@10"],
        &["run", "a.img", "--ram", "16", "--blind", "65535@0"],
        &["run", "a.img", "--ram", "16", "--blind", "1@1000000000"],
        &["run", "a.img", "--ram", "16", "--blind", "65535@1000000000"],
        &["run", "a.img", "--blind", "1@1", "--ram", "16"],
        &[
            "run", "a.img", "--ram", "16", "--blind", "1@1", "--steps", "5",
        ],
    ];
    for words in cases {
        check_code(&rt, rt.alloc(), words, &HELLO, Status::Ended, &LINES);
    }
}

#[test]
fn other_places_are_no_words(rt: HostRuntime) {
    let cases = [
        "",
        "@",
        "1",
        "1@",
        "@1",
        "0@1",
        "65536@1",
        "1000000000@1",
        "1@1000000001",
        "4294967297@1",
        "1@4294967297",
        "18446744073709551617@1",
        "1@18446744073709551616",
        "01@1",
        "00@1",
        "1@01",
        "1@00",
        "+1@1",
        "1@+1",
        "-1@1",
        "1@-1",
        "-0@1",
        "1@-0",
        " 1@1",
        "1 @1",
        "1@ 1",
        "1@1 ",
        "1@1@1",
        "1@@1",
        "@1@1",
        "1@1@",
        "1:1",
        "1@1_000",
        "0x1@1",
        "1@a",
        "a@1",
    ];
    for place in cases {
        let words = ["run", "a.img", "--blind", place];
        check_code(&rt, rt.alloc(), &words, &HELLO, Status::Words, &["words\n"]);
    }
}

#[test]
fn one_module_is_zeroed_at_most(rt: HostRuntime) {
    let cases: [&[&str]; 7] = [
        &["run", "a.img", "--blind"],
        &["run", "a.img", "--steps", "5", "--blind"],
        &["run", "a.img", "--blind", "--steps", "5"],
        &["run", "a.img", "--blind", "1@1", "--blind", "1@1"],
        &["run", "a.img", "--blind", "1@1", "--blind", "2@1"],
        &["run", "a.img", "--blind", "1@1", "1@1"],
        &["run", "a.img", "--Blind", "1@1"],
    ];
    for words in cases {
        check_code(&rt, rt.alloc(), words, &HELLO, Status::Words, &["words\n"]);
    }
}
