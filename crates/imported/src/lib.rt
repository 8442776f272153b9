// The nodes of a file as definitions: the lines that are read, how they are made into the store, when they are accepted, and what the roots
// then answer. No code: `import_steps`, `import_lines` and `import` meet them.

#![tactic(auto)]
