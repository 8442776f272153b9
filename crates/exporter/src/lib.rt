// Exports of diagrams to DDDMP files.
#![tactic(auto)]

ghost use Rattle.codes.specs.Lent.{borrowed, seen};
ghost use Rattle.std.specs.Prelude.{◌≡◌, true, false};
ghost use Rattle.read_text.specs.Text.{place};
ghost use Rattle.exported.specs.Settings.{settings, defaults};
ghost use Rattle.exporter.specs.Settings.{of_settings};
ghost use Rattle.exporter.specs.Promise.{ExportPromise};
ghost use Rattle.store.specs.Held.{held};

use codes::DDDMPVersion;
use codes::limits::VAR_LIMIT;
use codes::refusal::Refusal;
use edges::{Edge, Index};
use read_text::Place;
use store::StoreRef;

// Settings for the DDDMP export: the version, text or binary, and the place of the diagram's name in the lent bytes. Strict is the one way
// that there is: a name that can't be written as it is is refused.
#[derive(Clone, Copy)]
pub struct ExportSettings {
    version: DDDMPVersion,
    ascii: bool,
    strict: bool,
    dd: Place,
}

impl Default for ExportSettings {
    // Version 2.0, binary, strict, and no name of the diagram.
    fn default() -> ExportSettings
        ensures result_value { of_settings result ≡ defaults }
        ensures strict_value { result.strict ≡ true }
    {
        ExportSettings {
            version: ExportSettings::DEFAULT_VERSION,
            ascii: ExportSettings::DEFAULT_ASCII,
            strict: ExportSettings::DEFAULT_STRICT,
            dd: Place { start: 0, len: 0 },
        }
    }
}

impl ExportSettings {
    pub const DEFAULT_VERSION: DDDMPVersion = DDDMPVersion::V2_0;

    pub const DEFAULT_ASCII: bool = false;

    pub const DEFAULT_STRICT: bool = true;

    // Sets the version of the format.
    pub fn version(mut self, version: DDDMPVersion) -> ExportSettings
        ensures result_value { of_settings result ≡ settings version self.ascii (of_settings self).dd }
        ensures strict_value { result.strict ≡ self.strict }
    {
        self.version = version;
        self
    }

    // Nodes are written as text.
    pub fn ascii(mut self) -> ExportSettings
        ensures result_value { of_settings result ≡ settings self.version true (of_settings self).dd }
        ensures strict_value { result.strict ≡ self.strict }
    {
        self.ascii = true;
        self
    }

    // Nodes are written in binary.
    pub fn binary(mut self) -> ExportSettings
        ensures result_value { of_settings result ≡ settings self.version false (of_settings self).dd }
        ensures strict_value { result.strict ≡ self.strict }
    {
        self.ascii = false;
        self
    }

    // Sets the place of the diagram's name.
    pub fn diagram_name(mut self, start: u32, len: u32) -> ExportSettings
        ensures result_value { of_settings result ≡ settings self.version self.ascii (place start len) }
        ensures strict_value { result.strict ≡ self.strict }
    {
        self.dd = Place { start, len };
        self
    }

    // Exports the diagrams of the roots into `out`. `order` has each variable's level; `bytes` holds the names, `starts` and `lens` the
    // places of the variables', `rootstarts` and `rootlens` of the roots'. `slots` and `numbers` are marks, one for each node; `work` is for the check of
    // the store.
    pub fn export(
        self,
        store: &StoreRef,
        roots: &[Edge],
        order: &[u16],
        bytes: &[u8],
        starts: &[u32],
        lens: &[u32],
        rootstarts: &[u32],
        rootlens: &[u32],
        slots: &mut [Index],
        numbers: &mut [Index],
        out: &mut [u8],
        work: &mut [Index],
    ) -> Result<usize, Refusal>
        ensures { ExportPromise self (held store.now) (seen roots) (seen order) (seen bytes) (seen starts) (seen lens) (seen rootstarts) (seen rootlens)
            (borrowed slots) (borrowed numbers) (borrowed out) (borrowed work) result }
    {
        slots.fill(0);
        numbers.fill(0);
        out.fill(0);
        let mut vars = [0u16; VAR_LIMIT];
        let judged = export_faults::export_fault(
            store,
            roots,
            order,
            bytes,
            starts,
            lens,
            rootstarts,
            rootlens,
            self.dd,
            slots.len(),
            numbers.len(),
            out.len(),
            &mut vars,
            work,
        );
        work.fill(0);
        judged?;
        let n = export_file::write_file(
            self.version,
            self.ascii,
            self.dd,
            store,
            roots,
            order,
            &vars,
            bytes,
            starts,
            lens,
            rootstarts,
            rootlens,
            slots,
            numbers,
            out,
        );
        slots.fill(0);
        numbers.fill(0);
        Ok(n)
    }
}
