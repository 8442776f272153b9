// An export as definitions: its refusals, its settings and its file, and what an export has that isn't refused. No code: `export_faults`,
// `export_file` and `exporter` meet them.

#![tactic(auto)]
