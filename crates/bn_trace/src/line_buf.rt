ghost use Rattle.std.specs.Prelude.{◌≡◌, ◌+◌, ◌++◌, [], ◌<◌, ◌≤◌, length};
ghost use Rattle.bn_model.specs.Spelling.{spelling};

use crate::putting::{
    begin, begin_on_hart, end, put_byte, put_code, put_digest, put_finish, put_kind, put_number,
    put_page, put_place, put_request, put_small, put_word,
};
use arrayvec::ArrayVec;
use bn_types::Line;
use std::marker::Model;

/// The lines of one event as text, of at most 512 bytes.
#[derive(Debug, Drop)]
pub struct LineBuf {
    bytes: ArrayVec<u8, 512>,
}

impl Model for LineBuf {
    ghost use Rattle.std.specs.Prelude.{ℕ, List};

    ghost Value = { List ℕ };

    ghost view = { λ b. b.bytes.items };
}

impl LineBuf {
    /// No lines.
    pub fn new() -> LineBuf
        ensures { result ≡ [] }
    {
        LineBuf {
            bytes: ArrayVec::new(),
        }
    }

    /// The text of the lines.
    pub fn bytes(&self) -> &[u8]
        ensures { result.now ≡ self.now }
    {
        self.bytes.as_slice()
    }

    /// Drops all lines.
    pub fn clear(&mut self)
        ensures { self.new ≡ [] }
    {
        self.bytes.clear();
    }

    /// Appends a line, which has fewer than 128 bytes. 128 bytes are free.
    pub fn push(&mut self, line: &Line)
        requires { length self.old + 128 ≤ 512 }
        ensures text { self.new ≡ self.old ++ spelling line.now }
        ensures short { length (spelling line.now) < 128 }
    {
        put_line(&mut self.bytes, line);
    }
}

#[tactic(auto, unfolding(bn_model::specs::Spelling::spelling))]
fn put_line(bytes: &mut ArrayVec<u8, 512>, line: &Line)
    requires { length bytes.old.items + 128 ≤ 512 }
    ensures text { bytes.new.items ≡ bytes.old.items ++ spelling line.now }
    ensures short { length bytes.new.items < length bytes.old.items + 128 }
{
    match *line {
        Line::Out { n, h, b } => {
            begin_on_hart(bytes, b"out", n, h);
            put_byte(bytes, b);
            end(bytes);
        }
        Line::Deny { n, h, m, w, v } => {
            begin_on_hart(bytes, b"deny", n, h);
            put_number(bytes, u64::from(m.0));
            put_kind(bytes, w);
            put_page(bytes, v.0);
            end(bytes);
        }
        Line::Stop { n, h, m, p } => {
            begin_on_hart(bytes, b"stop", n, h);
            put_number(bytes, u64::from(m.0));
            put_word(bytes, p);
            end(bytes);
        }
        Line::Trap { n, h, c, p } => {
            begin_on_hart(bytes, b"trap", n, h);
            put_word(bytes, c);
            put_word(bytes, p);
            end(bytes);
        }
        Line::Launch { n, h, m, i } => {
            begin_on_hart(bytes, b"launch", n, h);
            put_number(bytes, u64::from(m.0));
            put_digest(bytes, i);
            end(bytes);
        }
        Line::Call { n, h, f, m, e } => {
            begin_on_hart(bytes, b"call", n, h);
            put_number(bytes, u64::from(f.0));
            put_number(bytes, u64::from(m.0));
            put_word(bytes, e);
            end(bytes);
        }
        Line::Ret { n, h, m, f, p } => {
            begin_on_hart(bytes, b"ret", n, h);
            put_number(bytes, u64::from(m.0));
            put_number(bytes, u64::from(f.0));
            put_word(bytes, p);
            end(bytes);
        }
        Line::Resume { n, h, m, p } => {
            begin_on_hart(bytes, b"resume", n, h);
            put_number(bytes, u64::from(m.0));
            put_word(bytes, p);
            end(bytes);
        }
        Line::Evict { n, h, m, k } => {
            begin_on_hart(bytes, b"evict", n, h);
            put_number(bytes, u64::from(m.0));
            put_small(bytes, k);
            end(bytes);
        }
        Line::Sset { n, h, m, k } => {
            begin_on_hart(bytes, b"sset", n, h);
            put_number(bytes, u64::from(m.0));
            put_small(bytes, k);
            end(bytes);
        }
        Line::Refuse { n, h, w, r } => {
            begin_on_hart(bytes, b"refuse", n, h);
            put_request(bytes, w);
            put_code(bytes, r);
            end(bytes);
        }
        Line::Start { n, h, t, p } => {
            begin_on_hart(bytes, b"start", n, h);
            put_small(bytes, t);
            put_word(bytes, p);
            end(bytes);
        }
        Line::Key { n, b } => {
            begin(bytes, b"key", n);
            put_byte(bytes, b);
            end(bytes);
        }
        Line::Nokey { n, b } => {
            begin(bytes, b"nokey", n);
            put_byte(bytes, b);
            end(bytes);
        }
        Line::Poke { n, g, o, b } => {
            begin(bytes, b"poke", n);
            put_place(bytes, g, o);
            put_byte(bytes, b);
            end(bytes);
        }
        Line::Nopoke { n, g, o } => {
            begin(bytes, b"nopoke", n);
            put_place(bytes, g, o);
            end(bytes);
        }
        Line::Peek { n, g, o, b } => {
            begin(bytes, b"peek", n);
            put_place(bytes, g, o);
            put_byte(bytes, b);
            end(bytes);
        }
        Line::Nopeek { n, g, o } => {
            begin(bytes, b"nopeek", n);
            put_place(bytes, g, o);
            end(bytes);
        }
        Line::End { n, w, d } => {
            begin(bytes, b"end", n);
            put_finish(bytes, w);
            put_digest(bytes, d);
            end(bytes);
        }
    }
}
