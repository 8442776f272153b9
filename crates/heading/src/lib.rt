// The header of an export as definitions: its lines by keys and words, their bytes, and what their tables hold. No code: `head_numbers`,
// `head_names` and `export_header` meet them.

#![tactic(auto)]
