mod flat;
mod walks;
