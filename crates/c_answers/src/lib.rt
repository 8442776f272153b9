// What the calls for C answer, and the settings that they are lent: structs by value, each field by an equation with the core's answer.
#![tactic(auto)]

ghost use Rattle.std.specs.Prelude.{◌≡◌};
ghost use Rattle.header_values.specs.Kinds.{of_var_info};
ghost use Rattle.codes.specs.Refusals.{read_of};
ghost use Rattle.header.specs.Kinds.{of_loaded};
ghost use Rattle.exporter.specs.Settings.{of_settings};
ghost use Rattle.evaluation.specs.SettingBytes.{byte_of};
ghost use Rattle.c_answers.specs.Answers.{of_load_answer, of_evaluated, of_example, of_level, of_length, of_root, of_turn};
ghost use Rattle.c_answers.specs.Settings.{version_of, settings_of, wanted_of};

use codes::refusal::{Fault, Refusal};
use codes::{DDDMPVersion, VarInfo};
use edges::Edge;
use exporter::ExportSettings;
use header::DumpHeader;

// The answer of a load: the number of a refusal, 0 of none, and its line; then the numbers of the header, zeros on a refusal.
#[repr(C)]
#[derive(Clone, Copy)]
pub struct LoadAnswer {
    pub refusal: u8,
    pub line: usize,
    pub ascii: u8,
    pub varinfo: u8,
    pub ddstart: u32,
    pub ddlen: u32,
    pub nnodes: u64,
    pub nvars: u32,
    pub nsuppvars: u32,
    pub nroots: u64,
    pub next: usize,
    pub lines: usize,
}

// The answer of an evaluation: 1 for yes, 0 for no or on a refusal. The line is always 0.
#[repr(C)]
#[derive(Clone, Copy)]
pub struct EvaluateAnswer {
    pub refusal: u8,
    pub line: usize,
    pub answer: u8,
}

// The answer of an example: the setting lies in the part that was lent for it. The line is always 0.
#[repr(C)]
#[derive(Clone, Copy)]
pub struct ExampleAnswer {
    pub refusal: u8,
    pub line: usize,
}

// The answer of a tipping point: the level, 0 on a refusal. The line is always 0.
#[repr(C)]
#[derive(Clone, Copy)]
pub struct TipAnswer {
    pub refusal: u8,
    pub line: usize,
    pub level: u16,
}

// The answer of a turn: the new store lies in the parts that were lent for it. The line is always 0.
#[repr(C)]
#[derive(Clone, Copy)]
pub struct WidenAnswer {
    pub refusal: u8,
    pub line: usize,
}

// The answer of an export: the length of the file, 0 on a refusal. The line is always 0.
#[repr(C)]
#[derive(Clone, Copy)]
pub struct ExportAnswer {
    pub refusal: u8,
    pub line: usize,
    pub len: usize,
}

// The answer of a join: the root, 0 on a refusal. The line is always 0.
#[repr(C)]
#[derive(Clone, Copy)]
pub struct JoinAnswer {
    pub refusal: u8,
    pub line: usize,
    pub root: Edge,
}

// 1 for yes, 0 for no.
fn byte_of(b: bool) -> u8
    ensures { result ≡ byte_of b }
{
    u8::from(b)
}

// The value of `.varinfo`.
fn varinfo_of(v: VarInfo) -> u8
    ensures { result ≡ of_var_info v }
{
    v as u8
}

impl From<Result<DumpHeader, Fault>> for LoadAnswer {
    ghost from_gives = { λ loaded answer. answer ≡ of_load_answer (of_loaded loaded) };

    fn from(loaded: Result<DumpHeader, Fault>) -> LoadAnswer {
        match loaded {
            Ok(h) => {
                LoadAnswer {
                    refusal: 0,
                    line: 0,
                    ascii: byte_of(h.ascii),
                    varinfo: varinfo_of(h.varinfo),
                    ddstart: h.dd.start,
                    ddlen: h.dd.len,
                    nnodes: h.nnodes,
                    nvars: h.nvars,
                    nsuppvars: h.nsuppvars,
                    nroots: h.nroots,
                    next: h.next,
                    lines: h.lines,
                }
            }
            Err(fault) => LoadAnswer {
                refusal: fault.number,
                line: fault.line,
                ascii: 0,
                varinfo: 0,
                ddstart: 0,
                ddlen: 0,
                nnodes: 0,
                nvars: 0,
                nsuppvars: 0,
                nroots: 0,
                next: 0,
                lines: 0,
            },
        }
    }
}

impl From<Result<bool, Refusal>> for EvaluateAnswer {
    ghost from_gives = { λ evaluation answer. answer ≡ of_evaluated (read_of evaluation) };

    fn from(evaluation: Result<bool, Refusal>) -> EvaluateAnswer {
        match evaluation {
            Ok(yes) => EvaluateAnswer {
                refusal: 0,
                line: 0,
                answer: byte_of(yes),
            },
            Err(r) => EvaluateAnswer {
                refusal: r.number(),
                line: 0,
                answer: 0,
            },
        }
    }
}

impl From<Result<(), Refusal>> for ExampleAnswer {
    ghost from_gives = { λ found answer. answer ≡ of_example (read_of found) };

    fn from(found: Result<(), Refusal>) -> ExampleAnswer {
        match found {
            Ok(()) => ExampleAnswer {
                refusal: 0,
                line: 0,
            },
            Err(r) => ExampleAnswer {
                refusal: r.number(),
                line: 0,
            },
        }
    }
}

// A wanted answer: yes unless it is 0.
pub fn wanted_of(b: u8) -> bool
    ensures { result ≡ wanted_of b }
{
    b != 0
}

impl From<Result<u16, Refusal>> for TipAnswer {
    ghost from_gives = { λ tipped answer. answer ≡ of_level (read_of tipped) };

    fn from(tipped: Result<u16, Refusal>) -> TipAnswer {
        match tipped {
            Ok(l) => TipAnswer {
                refusal: 0,
                line: 0,
                level: l,
            },
            Err(r) => TipAnswer {
                refusal: r.number(),
                line: 0,
                level: 0,
            },
        }
    }
}

impl From<Result<(), Refusal>> for WidenAnswer {
    ghost from_gives = { λ turned answer. answer ≡ of_turn (read_of turned) };

    fn from(turned: Result<(), Refusal>) -> WidenAnswer {
        match turned {
            Ok(()) => WidenAnswer {
                refusal: 0,
                line: 0,
            },
            Err(r) => WidenAnswer {
                refusal: r.number(),
                line: 0,
            },
        }
    }
}

impl From<Result<usize, Refusal>> for ExportAnswer {
    ghost from_gives = { λ exported answer. answer ≡ of_length (read_of exported) };

    fn from(exported: Result<usize, Refusal>) -> ExportAnswer {
        match exported {
            Ok(n) => ExportAnswer {
                refusal: 0,
                line: 0,
                len: n,
            },
            Err(r) => ExportAnswer {
                refusal: r.number(),
                line: 0,
                len: 0,
            },
        }
    }
}

impl From<Result<Edge, Refusal>> for JoinAnswer {
    ghost from_gives = { λ joined answer. answer ≡ of_root (read_of joined) };

    fn from(joined: Result<Edge, Refusal>) -> JoinAnswer {
        match joined {
            Ok(x) => JoinAnswer {
                refusal: 0,
                line: 0,
                root: x,
            },
            Err(r) => JoinAnswer {
                refusal: r.number(),
                line: 0,
                root: 0,
            },
        }
    }
}

// The version: a byte that isn't 0 stands for 3.0.
fn version_of(version: u8) -> DDDMPVersion
    ensures { result ≡ version_of version }
{
    if version == 0 {
        return DDDMPVersion::V2_0;
    }
    DDDMPVersion::V3_0
}

// The settings: a byte that isn't 0 stands for version 3.0, and for text.
pub fn settings_of(version: u8, text: u8, ddstart: u32, ddlen: u32) -> ExportSettings
    ensures { of_settings result ≡ settings_of version text ddstart ddlen }
{
    let named = ExportSettings::default().diagram_name(ddstart, ddlen);
    let settings = named.version(version_of(version));
    if text == 0 {
        return settings.binary();
    }
    settings.ascii()
}
