/// The first word of a line of the trace, which tells the line's kind.
#[derive(Clone, Copy, Debug, PartialEq, Eq)]
pub enum Head {
    Out,
    Deny,
    Stop,
    Trap,
    Launch,
    Call,
    Ret,
    Resume,
    Evict,
    Sset,
    Refuse,
    Start,
    Key,
    Nokey,
    Poke,
    Nopoke,
    Peek,
    Nopeek,
    End,
}
