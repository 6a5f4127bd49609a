use crate::{LineBuf, LineFault, read_line};
use bn_types::{Digest, Finish, Gpn, Kind, Line, ModId, Request, Vpn};
use std::test::Fail;

const ZEROS: Digest = Digest([0; 32]);

const ONES: Digest = Digest([0xff; 32]);

const MOST: u64 = u64::MAX;

// A line of each kind with the least values of its fields.
static LEAST: [(Line, &str); 19] = [
    (Line::Out { n: 0, h: 0, b: 0 }, "out 0 0 00\n"),
    (
        Line::Deny {
            n: 0,
            h: 0,
            m: ModId(0),
            w: Kind::Fetch,
            v: Vpn(0),
        },
        "deny 0 0 0 fetch 0000000000000\n",
    ),
    (
        Line::Stop {
            n: 0,
            h: 0,
            m: ModId(0),
            p: 0,
        },
        "stop 0 0 0 0000000000000000\n",
    ),
    (
        Line::Trap {
            n: 0,
            h: 0,
            c: 0,
            p: 0,
        },
        "trap 0 0 0000000000000000 0000000000000000\n",
    ),
    (
        Line::Launch {
            n: 0,
            h: 0,
            m: ModId(0),
            i: ZEROS,
        },
        "launch 0 0 0 \
         0000000000000000000000000000000000000000000000000000000000000000\n",
    ),
    (
        Line::Call {
            n: 0,
            h: 0,
            f: ModId(0),
            m: ModId(0),
            e: 0,
        },
        "call 0 0 0 0 0000000000000000\n",
    ),
    (
        Line::Ret {
            n: 0,
            h: 0,
            m: ModId(0),
            f: ModId(0),
            p: 0,
        },
        "ret 0 0 0 0 0000000000000000\n",
    ),
    (
        Line::Resume {
            n: 0,
            h: 0,
            m: ModId(0),
            p: 0,
        },
        "resume 0 0 0 0000000000000000\n",
    ),
    (
        Line::Evict {
            n: 0,
            h: 0,
            m: ModId(0),
            k: 0,
        },
        "evict 0 0 0 0\n",
    ),
    (
        Line::Sset {
            n: 0,
            h: 0,
            m: ModId(0),
            k: 0,
        },
        "sset 0 0 0 0\n",
    ),
    (
        Line::Refuse {
            n: 0,
            h: 0,
            w: Request::Launch,
            r: i64::MIN,
        },
        "refuse 0 0 launch -9223372036854775808\n",
    ),
    (
        Line::Start {
            n: 0,
            h: 0,
            t: 0,
            p: 0,
        },
        "start 0 0 0 0000000000000000\n",
    ),
    (Line::Key { n: 0, b: 0 }, "key 0 00\n"),
    (Line::Nokey { n: 0, b: 0 }, "nokey 0 00\n"),
    (
        Line::Poke {
            n: 0,
            g: Gpn(0),
            o: 0,
            b: 0,
        },
        "poke 0 0 0 00\n",
    ),
    (
        Line::Nopoke {
            n: 0,
            g: Gpn(0),
            o: 0,
        },
        "nopoke 0 0 0\n",
    ),
    (
        Line::Peek {
            n: 0,
            g: Gpn(0),
            o: 0,
            b: 0,
        },
        "peek 0 0 0 00\n",
    ),
    (
        Line::Nopeek {
            n: 0,
            g: Gpn(0),
            o: 0,
        },
        "nopeek 0 0 0\n",
    ),
    (
        Line::End {
            n: 0,
            w: Finish::Shutdown,
            d: ZEROS,
        },
        "end 0 shutdown \
         0000000000000000000000000000000000000000000000000000000000000000\n",
    ),
];

// A line of each kind with the greatest values of its fields.
static GREATEST: [(Line, &str); 19] = [
    (
        Line::Out {
            n: MOST,
            h: 255,
            b: 0xff,
        },
        "out 18446744073709551615 255 ff\n",
    ),
    (
        Line::Deny {
            n: MOST,
            h: 255,
            m: ModId(65535),
            w: Kind::Store,
            v: Vpn((1 << 52) - 1),
        },
        "deny 18446744073709551615 255 65535 store fffffffffffff\n",
    ),
    (
        Line::Stop {
            n: MOST,
            h: 255,
            m: ModId(65535),
            p: MOST,
        },
        "stop 18446744073709551615 255 65535 ffffffffffffffff\n",
    ),
    (
        Line::Trap {
            n: MOST,
            h: 255,
            c: MOST,
            p: MOST,
        },
        "trap 18446744073709551615 255 ffffffffffffffff ffffffffffffffff\n",
    ),
    (
        Line::Launch {
            n: MOST,
            h: 255,
            m: ModId(65535),
            i: ONES,
        },
        "launch 18446744073709551615 255 65535 \
         ffffffffffffffffffffffffffffffffffffffffffffffffffffffffffffffff\n",
    ),
    (
        Line::Call {
            n: MOST,
            h: 255,
            f: ModId(65535),
            m: ModId(65534),
            e: MOST,
        },
        "call 18446744073709551615 255 65535 65534 ffffffffffffffff\n",
    ),
    (
        Line::Ret {
            n: MOST,
            h: 255,
            m: ModId(65535),
            f: ModId(65534),
            p: MOST,
        },
        "ret 18446744073709551615 255 65535 65534 ffffffffffffffff\n",
    ),
    (
        Line::Resume {
            n: MOST,
            h: 255,
            m: ModId(65535),
            p: MOST,
        },
        "resume 18446744073709551615 255 65535 ffffffffffffffff\n",
    ),
    (
        Line::Evict {
            n: MOST,
            h: 255,
            m: ModId(65535),
            k: 255,
        },
        "evict 18446744073709551615 255 65535 255\n",
    ),
    (
        Line::Sset {
            n: MOST,
            h: 255,
            m: ModId(65535),
            k: 255,
        },
        "sset 18446744073709551615 255 65535 255\n",
    ),
    (
        Line::Refuse {
            n: MOST,
            h: 255,
            w: Request::Sset,
            r: -1,
        },
        "refuse 18446744073709551615 255 sset -1\n",
    ),
    (
        Line::Start {
            n: MOST,
            h: 255,
            t: 255,
            p: MOST,
        },
        "start 18446744073709551615 255 255 ffffffffffffffff\n",
    ),
    (
        Line::Key { n: MOST, b: 0xff },
        "key 18446744073709551615 ff\n",
    ),
    (
        Line::Nokey { n: MOST, b: 0xff },
        "nokey 18446744073709551615 ff\n",
    ),
    (
        Line::Poke {
            n: MOST,
            g: Gpn(u32::MAX),
            o: 65535,
            b: 0xff,
        },
        "poke 18446744073709551615 4294967295 65535 ff\n",
    ),
    (
        Line::Nopoke {
            n: MOST,
            g: Gpn(u32::MAX),
            o: 65535,
        },
        "nopoke 18446744073709551615 4294967295 65535\n",
    ),
    (
        Line::Peek {
            n: MOST,
            g: Gpn(u32::MAX),
            o: 65535,
            b: 0xff,
        },
        "peek 18446744073709551615 4294967295 65535 ff\n",
    ),
    (
        Line::Nopeek {
            n: MOST,
            g: Gpn(u32::MAX),
            o: 65535,
        },
        "nopeek 18446744073709551615 4294967295 65535\n",
    ),
    (
        Line::End {
            n: MOST,
            w: Finish::Limit,
            d: ONES,
        },
        "end 18446744073709551615 limit \
         ffffffffffffffffffffffffffffffffffffffffffffffffffffffffffffffff\n",
    ),
];

// Lines of small guests.
static USUAL: [(Line, &str); 15] = [
    (
        Line::Out {
            n: 2,
            h: 0,
            b: 0x41,
        },
        "out 2 0 41\n",
    ),
    (Line::Key { n: 2, b: 0x41 }, "key 2 41\n"),
    (
        Line::Out {
            n: 3,
            h: 0,
            b: 0x41,
        },
        "out 3 0 41\n",
    ),
    (
        Line::Poke {
            n: 0,
            g: Gpn(5),
            o: 0,
            b: 0x7f,
        },
        "poke 0 5 0 7f\n",
    ),
    (
        Line::Peek {
            n: 1,
            g: Gpn(5),
            o: 0,
            b: 0x7f,
        },
        "peek 1 5 0 7f\n",
    ),
    (
        Line::Nopeek {
            n: 2,
            g: Gpn(2000),
            o: 0,
        },
        "nopeek 2 2000 0\n",
    ),
    (
        Line::Nopoke {
            n: 9,
            g: Gpn(17),
            o: 0,
        },
        "nopoke 9 17 0\n",
    ),
    (Line::Nokey { n: 256, b: 0x41 }, "nokey 256 41\n"),
    (
        Line::Start {
            n: 7,
            h: 0,
            t: 1,
            p: 0x8000_3000,
        },
        "start 7 0 1 0000000080003000\n",
    ),
    (
        Line::Deny {
            n: 8,
            h: 0,
            m: ModId(1),
            w: Kind::Load,
            v: Vpn(0x80011),
        },
        "deny 8 0 1 load 0000000080011\n",
    ),
    (
        Line::Stop {
            n: 8,
            h: 0,
            m: ModId(1),
            p: 0x8001_0000,
        },
        "stop 8 0 1 0000000080010000\n",
    ),
    (
        Line::Trap {
            n: 4,
            h: 1,
            c: (1 << 63) + 1,
            p: 0x8001_0014,
        },
        "trap 4 1 8000000000000001 0000000080010014\n",
    ),
    (
        Line::Call {
            n: 5,
            h: 0,
            f: ModId(0),
            m: ModId(1),
            e: 0x8001_0000,
        },
        "call 5 0 0 1 0000000080010000\n",
    ),
    (
        Line::Refuse {
            n: 5,
            h: 0,
            w: Request::Call,
            r: -4,
        },
        "refuse 5 0 call -4\n",
    ),
    (
        Line::Refuse {
            n: 6,
            h: 0,
            w: Request::Evict,
            r: -2,
        },
        "refuse 6 0 evict -2\n",
    ),
];

// Texts that aren't lines, and where each stops being one.
static FAULTY: [(&str, usize); 39] = [
    ("", 0),
    ("out 2 0 41", 10),
    ("ou 2 0 41", 9),
    ("\n", 0),
    ("ou 2 0 41\n", 0),
    ("Out 2 0 41\n", 0),
    (" out 2 0 41\n", 0),
    ("out\n", 3),
    ("out 02 0 41\n", 4),
    ("out +2 0 41\n", 4),
    ("out  2 0 41\n", 4),
    ("out \n", 4),
    ("out 18446744073709551616 0 41\n", 4),
    ("out 2 256 41\n", 6),
    ("out 2 0 4A\n", 8),
    ("out 2 0 041\n", 8),
    ("out 2 0 4\n", 8),
    ("out 2 0 41\r\n", 8),
    ("out 2 0\n", 7),
    ("out 2 0 \n", 8),
    ("out 2 0 41 7\n", 11),
    ("out 2 0 41 \n", 11),
    ("stop 0 0 65536 0000000000000000\n", 9),
    ("stop 0 0 0 000000000000000\n", 11),
    ("stop 0 0 0 00000000000000000\n", 11),
    ("stop 0 0 0 000000000000000A\n", 11),
    ("deny 0 0 0 jump 0000000000000\n", 11),
    ("deny 0 0 0 fetch 000000000000\n", 17),
    ("deny 0 0 0 fetch 00000000000000\n", 17),
    ("evict 0 0 0 256\n", 12),
    ("refuse 5 0 call 4\n", 16),
    ("refuse 5 0 call -0\n", 16),
    ("refuse 5 0 call -\n", 16),
    ("refuse 5 0 call -9223372036854775809\n", 16),
    ("refuse 5 0 stop -1\n", 11),
    ("peek 0 4294967296 0 00\n", 7),
    ("peek 0 0 65536 00\n", 9),
    ("end 0 off 00\n", 6),
    ("end 0 limit 00\n", 12),
];

// Whether the line is written as this text, of fewer than 128 bytes, and the text read as the line.
fn is_spelled(line: &Line, text: &str) -> bool {
    let mut lines = LineBuf::new();
    lines.push(line);
    lines.bytes() == text.as_bytes()
        && text.len() < 128
        && read_line(text.as_bytes()) == Ok((*line, text.len()))
}

#[test]
fn lines_are_written_and_read(rt: HostRuntime) -> Result<(), Fail> {
    for rows in [LEAST.as_slice(), GREATEST.as_slice(), USUAL.as_slice()] {
        for (line, text) in rows {
            assert!(rt; is_spelled(line, text), "{text}");
        }
    }
    Ok(())
}

#[test]
fn a_fault_is_where_the_line_stops_being_one(rt: HostRuntime) -> Result<(), Fail> {
    for (text, at) in &FAULTY {
        assert_eq!(rt;
            read_line(text.as_bytes()),
            Err(LineFault { at: *at }),
            "{text}"
        );
    }
    Ok(())
}

#[test]
fn lines_are_gathered_and_dropped(rt: HostRuntime) -> Result<(), Fail> {
    let mut lines = LineBuf::new();
    lines.push(&Line::Key { n: 0, b: 0x61 });
    lines.push(&Line::Nokey { n: 1, b: 0x62 });
    let text = b"key 0 61\nnokey 1 62\n";
    assert_eq!(rt; lines.bytes(), text.as_slice());
    assert_eq!(rt; read_line(text), Ok((Line::Key { n: 0, b: 0x61 }, 9)));
    lines.clear();
    assert!(rt; lines.bytes().is_empty());
    Ok(())
}
