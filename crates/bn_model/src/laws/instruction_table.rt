//! The laws of the instruction table.
ghost use Rattle.bn_model.specs.TableLaws.{FollowsTable, HasOneInsn, HasOneWord, KeepsRanges};

/// The instruction of a word, by opcodes, is the one that the table relates to it.
pub fn follows_table()
    ensures { FollowsTable }
{}

/// The table relates a word to one instruction at most.
pub fn one_insn()
    ensures { HasOneInsn }
{}

/// The table relates an instruction whose fields are in range to exactly one word.
pub fn one_word()
    ensures { HasOneWord }
{}

/// The fields of an instruction that the table relates to a word are in range.
pub fn keeps_ranges()
    ensures { KeepsRanges }
{}
