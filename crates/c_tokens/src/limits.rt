//! What a source may have at most.

/// How many bytes a source has.
pub const MAX_SOURCE: usize = 1_048_576;

/// How many bytes a name has.
pub const MAX_NAME: usize = 64;

/// How many arrays.
pub const MAX_ARRAYS: u32 = 64;

/// How many cells an array has.
pub const MAX_CELLS: u64 = 65_536;

/// How many scalars.
pub const MAX_SCALARS: u32 = 256;

/// How many statements.
pub const MAX_STATEMENTS: u32 = 16_384;

/// How many blocks are open at once, beside that of the globals.
pub const MAX_BRACES: usize = 16;

/// How many tokens an expression has.
pub const MAX_TOKENS: u32 = 256;

/// How many brackets are open at once in an expression.
pub const MAX_BRACKETS: u32 = 16;

/// How many depend items a directive has.
pub const MAX_DEPENDS: u32 = 64;

/// How many terms a bound has.
pub const MAX_TERMS: u32 = 8;
