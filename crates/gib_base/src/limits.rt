//! The limits of the language and of its files.

/// The greatest length of a source text, in bytes.
pub const SOURCE_BYTES: u64 = 1_048_576;

/// The greatest length of a packed file and of a value text, in bytes.
pub const FILE_BYTES: u64 = 16_777_216;

/// How many names a source text may have.
pub const NAMES: u32 = 65_535;

/// The greatest literal.
pub const LITERAL: u64 = 9_223_372_036_854_775_807;

/// How deep expressions may be nested; a function's body stands on level 1.
pub const LEVELS: u32 = 200;

/// How many constructors a program may declare.
pub const CONSTRUCTORS: u32 = 200;

/// How many functions a program may declare, main left out.
pub const FUNCTIONS: u32 = 1_000;

/// How many fields a constructor may have.
pub const FIELDS: u32 = 8;

/// How many variables a function may have, its parameters among them.
pub const VARIABLES: u32 = 200;

/// How many expressions a function may have.
pub const EXPRESSIONS: u32 = 2_000;

/// How many type parameters a type or a function may have.
pub const TYPE_PARAMETERS: u32 = 8;

/// How many parts a result may have, and how many variables a binding of parts.
pub const PARTS: u32 = 8;

/// How many words a type may have, written out, where it is an argument for a type parameter.
pub const TYPE_WORDS: u32 = 64;
