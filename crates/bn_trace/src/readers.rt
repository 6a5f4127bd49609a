//! The lines of each kind, read from the rest after their first word.
ghost use Rattle.std.specs.Prelude.{◌≡◌};
ghost use Rattle.bn_types.specs.Splitting.{pieces_after};
ghost use Rattle.bn_model.specs.LineReading as flat;

use crate::fields::{access, asked, byte, code, digest, end, ended, number, page, word};
use bn_model::Head;
use bn_types::{Gpn, Line, ModId, Vpn};

/// A line whose first word this is, and after that this rest. An error tells how many bytes are
/// left where the line stops being one.
pub fn read_rest(head: Head, rest: &[u8]) -> Result<Line, usize>
    ensures { result ≡ flat.line_after head (pieces_after 32 rest.now) }
{
    match head {
        Head::Out => read_out(rest),
        Head::Deny => read_deny(rest),
        Head::Stop => read_stop(rest),
        Head::Trap => read_trap(rest),
        Head::Launch => read_launch(rest),
        Head::Call => read_call(rest),
        Head::Ret => read_ret(rest),
        Head::Resume => read_resume(rest),
        Head::Evict => read_evict(rest),
        Head::Sset => read_sset(rest),
        Head::Refuse => read_refuse(rest),
        Head::Start => read_start(rest),
        Head::Key => read_key(rest),
        Head::Nokey => read_nokey(rest),
        Head::Poke => read_poke(rest),
        Head::Nopoke => read_nopoke(rest),
        Head::Peek => read_peek(rest),
        Head::Nopeek => read_nopeek(rest),
        Head::End => read_end(rest),
    }
}

#[tactic(auto, unfolding(bn_model::specs::LineReading::line_after))]
fn read_out(rest: &[u8]) -> Result<Line, usize>
    ensures { result ≡ flat.line_after Head.Out (pieces_after 32 rest.now) }
{
    let (n, rest) = number(rest, u64::MAX)?;
    let (h, rest) = number(rest, 0xff)?;
    let (b, rest) = byte(rest)?;
    end(rest)?;
    Ok(Line::Out { n, h: h as u8, b })
}

#[tactic(auto, unfolding(bn_model::specs::LineReading::line_after))]
fn read_deny(rest: &[u8]) -> Result<Line, usize>
    ensures { result ≡ flat.line_after Head.Deny (pieces_after 32 rest.now) }
{
    let (n, rest) = number(rest, u64::MAX)?;
    let (h, rest) = number(rest, 0xff)?;
    let (m, rest) = number(rest, 0xffff)?;
    let (w, rest) = access(rest)?;
    let (v, rest) = page(rest)?;
    end(rest)?;
    Ok(Line::Deny {
        n,
        h: h as u8,
        m: ModId(m as u16),
        w,
        v: Vpn(v),
    })
}

#[tactic(auto, unfolding(bn_model::specs::LineReading::line_after))]
fn read_stop(rest: &[u8]) -> Result<Line, usize>
    ensures { result ≡ flat.line_after Head.Stop (pieces_after 32 rest.now) }
{
    let (n, rest) = number(rest, u64::MAX)?;
    let (h, rest) = number(rest, 0xff)?;
    let (m, rest) = number(rest, 0xffff)?;
    let (p, rest) = word(rest)?;
    end(rest)?;
    Ok(Line::Stop {
        n,
        h: h as u8,
        m: ModId(m as u16),
        p,
    })
}

#[tactic(auto, unfolding(bn_model::specs::LineReading::line_after))]
fn read_trap(rest: &[u8]) -> Result<Line, usize>
    ensures { result ≡ flat.line_after Head.Trap (pieces_after 32 rest.now) }
{
    let (n, rest) = number(rest, u64::MAX)?;
    let (h, rest) = number(rest, 0xff)?;
    let (c, rest) = word(rest)?;
    let (p, rest) = word(rest)?;
    end(rest)?;
    Ok(Line::Trap {
        n,
        h: h as u8,
        c,
        p,
    })
}

#[tactic(auto, unfolding(bn_model::specs::LineReading::line_after))]
fn read_launch(rest: &[u8]) -> Result<Line, usize>
    ensures { result ≡ flat.line_after Head.Launch (pieces_after 32 rest.now) }
{
    let (n, rest) = number(rest, u64::MAX)?;
    let (h, rest) = number(rest, 0xff)?;
    let (m, rest) = number(rest, 0xffff)?;
    let (i, rest) = digest(rest)?;
    end(rest)?;
    Ok(Line::Launch {
        n,
        h: h as u8,
        m: ModId(m as u16),
        i,
    })
}

#[tactic(auto, unfolding(bn_model::specs::LineReading::line_after))]
fn read_call(rest: &[u8]) -> Result<Line, usize>
    ensures { result ≡ flat.line_after Head.Call (pieces_after 32 rest.now) }
{
    let (n, rest) = number(rest, u64::MAX)?;
    let (h, rest) = number(rest, 0xff)?;
    let (f, rest) = number(rest, 0xffff)?;
    let (m, rest) = number(rest, 0xffff)?;
    let (e, rest) = word(rest)?;
    end(rest)?;
    Ok(Line::Call {
        n,
        h: h as u8,
        f: ModId(f as u16),
        m: ModId(m as u16),
        e,
    })
}

#[tactic(auto, unfolding(bn_model::specs::LineReading::line_after))]
fn read_ret(rest: &[u8]) -> Result<Line, usize>
    ensures { result ≡ flat.line_after Head.Ret (pieces_after 32 rest.now) }
{
    let (n, rest) = number(rest, u64::MAX)?;
    let (h, rest) = number(rest, 0xff)?;
    let (m, rest) = number(rest, 0xffff)?;
    let (f, rest) = number(rest, 0xffff)?;
    let (p, rest) = word(rest)?;
    end(rest)?;
    Ok(Line::Ret {
        n,
        h: h as u8,
        m: ModId(m as u16),
        f: ModId(f as u16),
        p,
    })
}

#[tactic(auto, unfolding(bn_model::specs::LineReading::line_after))]
fn read_resume(rest: &[u8]) -> Result<Line, usize>
    ensures { result ≡ flat.line_after Head.Resume (pieces_after 32 rest.now) }
{
    let (n, rest) = number(rest, u64::MAX)?;
    let (h, rest) = number(rest, 0xff)?;
    let (m, rest) = number(rest, 0xffff)?;
    let (p, rest) = word(rest)?;
    end(rest)?;
    Ok(Line::Resume {
        n,
        h: h as u8,
        m: ModId(m as u16),
        p,
    })
}

#[tactic(auto, unfolding(bn_model::specs::LineReading::line_after))]
fn read_evict(rest: &[u8]) -> Result<Line, usize>
    ensures { result ≡ flat.line_after Head.Evict (pieces_after 32 rest.now) }
{
    let (n, rest) = number(rest, u64::MAX)?;
    let (h, rest) = number(rest, 0xff)?;
    let (m, rest) = number(rest, 0xffff)?;
    let (k, rest) = number(rest, 0xff)?;
    end(rest)?;
    Ok(Line::Evict {
        n,
        h: h as u8,
        m: ModId(m as u16),
        k: k as u8,
    })
}

#[tactic(auto, unfolding(bn_model::specs::LineReading::line_after))]
fn read_sset(rest: &[u8]) -> Result<Line, usize>
    ensures { result ≡ flat.line_after Head.Sset (pieces_after 32 rest.now) }
{
    let (n, rest) = number(rest, u64::MAX)?;
    let (h, rest) = number(rest, 0xff)?;
    let (m, rest) = number(rest, 0xffff)?;
    let (k, rest) = number(rest, 0xff)?;
    end(rest)?;
    Ok(Line::Sset {
        n,
        h: h as u8,
        m: ModId(m as u16),
        k: k as u8,
    })
}

#[tactic(auto, unfolding(bn_model::specs::LineReading::line_after))]
fn read_refuse(rest: &[u8]) -> Result<Line, usize>
    ensures { result ≡ flat.line_after Head.Refuse (pieces_after 32 rest.now) }
{
    let (n, rest) = number(rest, u64::MAX)?;
    let (h, rest) = number(rest, 0xff)?;
    let (w, rest) = asked(rest)?;
    let (r, rest) = code(rest)?;
    end(rest)?;
    Ok(Line::Refuse {
        n,
        h: h as u8,
        w,
        r,
    })
}

#[tactic(auto, unfolding(bn_model::specs::LineReading::line_after))]
fn read_start(rest: &[u8]) -> Result<Line, usize>
    ensures { result ≡ flat.line_after Head.Start (pieces_after 32 rest.now) }
{
    let (n, rest) = number(rest, u64::MAX)?;
    let (h, rest) = number(rest, 0xff)?;
    let (t, rest) = number(rest, 0xff)?;
    let (p, rest) = word(rest)?;
    end(rest)?;
    Ok(Line::Start {
        n,
        h: h as u8,
        t: t as u8,
        p,
    })
}

#[tactic(auto, unfolding(bn_model::specs::LineReading::line_after))]
fn read_key(rest: &[u8]) -> Result<Line, usize>
    ensures { result ≡ flat.line_after Head.Key (pieces_after 32 rest.now) }
{
    let (n, rest) = number(rest, u64::MAX)?;
    let (b, rest) = byte(rest)?;
    end(rest)?;
    Ok(Line::Key { n, b })
}

#[tactic(auto, unfolding(bn_model::specs::LineReading::line_after))]
fn read_nokey(rest: &[u8]) -> Result<Line, usize>
    ensures { result ≡ flat.line_after Head.Nokey (pieces_after 32 rest.now) }
{
    let (n, rest) = number(rest, u64::MAX)?;
    let (b, rest) = byte(rest)?;
    end(rest)?;
    Ok(Line::Nokey { n, b })
}

#[tactic(auto, unfolding(bn_model::specs::LineReading::line_after))]
fn read_poke(rest: &[u8]) -> Result<Line, usize>
    ensures { result ≡ flat.line_after Head.Poke (pieces_after 32 rest.now) }
{
    let (n, rest) = number(rest, u64::MAX)?;
    let (g, rest) = number(rest, 0xffff_ffff)?;
    let (o, rest) = number(rest, 0xffff)?;
    let (b, rest) = byte(rest)?;
    end(rest)?;
    Ok(Line::Poke {
        n,
        g: Gpn(g as u32),
        o: o as u16,
        b,
    })
}

#[tactic(auto, unfolding(bn_model::specs::LineReading::line_after))]
fn read_nopoke(rest: &[u8]) -> Result<Line, usize>
    ensures { result ≡ flat.line_after Head.Nopoke (pieces_after 32 rest.now) }
{
    let (n, rest) = number(rest, u64::MAX)?;
    let (g, rest) = number(rest, 0xffff_ffff)?;
    let (o, rest) = number(rest, 0xffff)?;
    end(rest)?;
    Ok(Line::Nopoke {
        n,
        g: Gpn(g as u32),
        o: o as u16,
    })
}

#[tactic(auto, unfolding(bn_model::specs::LineReading::line_after))]
fn read_peek(rest: &[u8]) -> Result<Line, usize>
    ensures { result ≡ flat.line_after Head.Peek (pieces_after 32 rest.now) }
{
    let (n, rest) = number(rest, u64::MAX)?;
    let (g, rest) = number(rest, 0xffff_ffff)?;
    let (o, rest) = number(rest, 0xffff)?;
    let (b, rest) = byte(rest)?;
    end(rest)?;
    Ok(Line::Peek {
        n,
        g: Gpn(g as u32),
        o: o as u16,
        b,
    })
}

#[tactic(auto, unfolding(bn_model::specs::LineReading::line_after))]
fn read_nopeek(rest: &[u8]) -> Result<Line, usize>
    ensures { result ≡ flat.line_after Head.Nopeek (pieces_after 32 rest.now) }
{
    let (n, rest) = number(rest, u64::MAX)?;
    let (g, rest) = number(rest, 0xffff_ffff)?;
    let (o, rest) = number(rest, 0xffff)?;
    end(rest)?;
    Ok(Line::Nopeek {
        n,
        g: Gpn(g as u32),
        o: o as u16,
    })
}

#[tactic(auto, unfolding(bn_model::specs::LineReading::line_after))]
fn read_end(rest: &[u8]) -> Result<Line, usize>
    ensures { result ≡ flat.line_after Head.End (pieces_after 32 rest.now) }
{
    let (n, rest) = number(rest, u64::MAX)?;
    let (w, rest) = ended(rest)?;
    let (d, rest) = digest(rest)?;
    end(rest)?;
    Ok(Line::End { n, w, d })
}
