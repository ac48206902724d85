//! The limits of a script. They are this project's own.

/// The most bytes of a script that the program reads.
pub const MAX_SCRIPT: usize = 16_777_216;

/// The most commands of a script.
pub const MAX_COMMANDS: usize = 100_000;

/// The most customers of a script.
pub const MAX_CUSTOMERS: usize = 10_000;

/// The greatest START of a clock line, in seconds since 1970 began at UTC.
pub const MAX_START: u64 = 1_000_000_000_000;

/// The greatest STEP of a clock line, in seconds.
pub const MAX_STEP: u64 = 1_000_000;

/// The greatest N of a planned verdict: it is on the N-th record of its number.
pub const MAX_NTH: u64 = 1000;

/// The greatest code of a planned verdict.
pub const MAX_CODE: u64 = 65_535;

/// The longest planned pause, in seconds: a day.
pub const MAX_WAIT: u64 = 86_400;

/// The greatest number of a call whose fate is planned.
pub const MAX_CALL: u64 = 1_000_000;

/// The most calls that a planned fate comes late.
pub const MAX_LATE: u64 = 1000;
