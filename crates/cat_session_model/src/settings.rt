//! The settings of the program.
ghost use Rattle.std.specs.Prelude.{◌≡◌};
ghost use Rattle.cat_session_model.specs.Program.{program_settings};

use cat_model::types::{OrphanRule, Settings};

/// The most stored input bytes.
pub const INPUT_LIMIT: u64 = 67_108_864;

/// The settings of the program under a rule for orphans, in milliseconds and bytes.
pub fn settings(orphans: OrphanRule) -> Settings
    ensures { result ≡ program_settings orphans }
{
    Settings {
        interval: 120_000,
        lease: 60_000,
        input_limit: INPUT_LIMIT,
        orphans,
    }
}
