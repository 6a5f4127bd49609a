use crate::ScriptSort;

/// A faulty script: its first bad line, counted from 1, or 0 where the whole text is too long, and
/// what is wrong.
#[derive(Clone, Copy, Debug, PartialEq, Eq)]
pub struct ScriptFault {
    pub line: u32,
    pub sort: ScriptSort,
}
