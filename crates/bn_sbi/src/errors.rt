/// The error -3: a number is no hart's.
pub const INVALID_PARAMETER: u64 = u64::MAX - 2;

/// The error -5: an address isn't a multiple of 4.
pub const INVALID_ADDRESS: u64 = u64::MAX - 4;

/// The error -6: the hart is started.
pub const ALREADY_AVAILABLE: u64 = u64::MAX - 5;

/// The error -2: there is no such call.
pub const NOT_SUPPORTED: u64 = u64::MAX - 1;
