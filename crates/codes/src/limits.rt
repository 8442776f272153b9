// The limits. Document 01, 'Limits'; specs/Limits.antt has them for the definitions.

// Variables, entries of a variable list, levels of a store.
pub const VAR_LIMIT: usize = 4096;

// Entries of a root list.
pub const ROOT_LIMIT: usize = 1024;

// Nodes of a file, and of a store.
pub const NODE_LIMIT: usize = 1000000;

// Bytes of an input.
pub const INPUT_LIMIT: usize = 67108864;
