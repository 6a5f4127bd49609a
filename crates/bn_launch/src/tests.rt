mod codes;
mod flat;
mod launches;
mod memory;
mod rows;
