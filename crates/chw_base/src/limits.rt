//! The limits of `chw`. Contracts cite them by these names.

/// The longest text of a description, in bytes.
pub const DESCRIPTION_BYTES: u32 = 4_194_304;
/// The deepest nesting of brackets of a description, and the greatest height of its tree.
pub const NESTING: u32 = 200;
/// The most definitions of a description.
pub const DEFINITIONS: u32 = 4_096;
/// The most data types of a description, the built-in ones left out.
pub const DATA_TYPES: u32 = 1_024;
/// The most clock domains of a description.
pub const DOMAINS: u32 = 64;
/// The most elements of a written vector.
pub const WRITTEN_VECTOR: u32 = 1_024;
/// The value of a literal is below two to this number.
pub const LITERAL_VALUE_BITS: u32 = 128;
/// A numeral of a type, and the width of a literal, is below two to this number.
pub const TYPE_NUMERAL_BITS: u32 = 32;
/// The deepest type that putting types into another may give. A type without parts has depth 1.
pub const TYPE_DEPTH: u32 = 4_000;
/// The most parts of a type that putting types into another may give, the type itself counted.
pub const TYPE_PARTS: u32 = 1_000_000;
/// The most factors of a natural that is multiplied out, those of all its products together.
pub const NATURAL_FACTORS: u32 = 64_000_000;
/// The most parts that the types of the fields of one top's ports have together, each with the arguments put in.
pub const PORT_PARTS: u32 = 4_000_000;
/// The widest scalar, in bits.
pub const SCALAR_BITS: u32 = 128;
/// The longest vector, in elements.
pub const VECTOR_LENGTH: u32 = 1_024;
/// The widest data value or vector, in bits.
pub const DATA_BITS: u32 = 4_096;
/// The deepest body of a made definition.
pub const MADE_DEPTH: u32 = 2_000;
/// The most made definitions.
pub const MADE_DEFINITIONS: u32 = 4_096;
/// The widest wire of a net, in bits.
pub const WIRE_BITS: u32 = 4_096;
/// The widest sum, difference or product of a net, in bits.
pub const ARITHMETIC_BITS: u32 = 128;
/// The most words of a RAM.
pub const RAM_WORDS: u32 = 1_024;
/// The width of an address of a RAM, in bits.
pub const ADDRESS_BITS: u32 = 12;
/// The most modules of a net.
pub const MODULES: u32 = 4_096;
/// The most flat wires of a net.
pub const FLAT_WIRES: u32 = 200_000;
/// The most events of a stimulus.
pub const EVENTS: u32 = 100_000;
/// The longest text of a stimulus, in bytes.
pub const STIMULUS_BYTES: u32 = 67_108_864;
/// The longest Verilog text that is read, in bytes.
pub const VERILOG_BYTES: u32 = 67_108_864;
/// The size of the pieces in which an answer is written, in bytes. The last piece may be shorter.
pub const PIECE_BYTES: u32 = 1_024;
