//! The trait `Keeper`, which stores campaigns as files, and its implementation by the file system.
use crate::fault::SurveyFailure;
use crate::kept_campaigns::keep;
use std::fs::File;
use streams::Filled;

/// A store for campaigns, each in a file of its own.
pub trait Keeper {
    ghost use Rattle.std.specs.Prelude.{ℕ, List, [], ◌∷◌, Option, IfErr, IfOk, OnOk};
    ghost use Rattle.streams.specs.Filling.{IsFilledBy};
    ghost use Rattle.surveyor.specs.Faults.{IsUnkept};
    ghost use Rattle.surveyor.specs.Kept.{Gains, beside_name, kept_name};

    // The names and the bytes of the files that it has stored, if they are known.
    ghost files: { Self → Option (List (List ℕ × List ℕ)) };

    /// Writes `text`, the campaign of a seed, to the file FOLDER/SEED.toml.
    ///
    /// # Errors
    ///
    /// Fails if the file cannot be written, or if memory runs out. The campaign is first written to another file, which
    /// is then renamed. If this other file exists already, the error names it.
    fn keep<'t>(
        &mut self,
        folder: &str,
        seed: u64,
        text: &'t str,
    ) -> Result<Filled<'t, File>, SurveyFailure>
        ensures kept { OnOk result
            (Gains (files self.old) (files self.new) ((kept_name folder.now seed, text.now) ∷ [])) }
        ensures written { IfOk result (IsFilledBy (kept_name folder.now seed) text.now) }
        ensures unkept { IfErr result (IsUnkept (kept_name folder.now seed) (beside_name folder.now seed)) };
}

/// A keeper that stores campaigns in the file system.
#[derive(Drop)]
pub struct Disk<'a> {
    pub rt: &'a HostRuntime,
}

impl Keeper for Disk<'_> {
    ghost use Rattle.std.specs.Prelude.{None};

    ghost files = { λ _. None };

    fn keep<'t>(
        &mut self,
        folder: &str,
        seed: u64,
        text: &'t str,
    ) -> Result<Filled<'t, File>, SurveyFailure> {
        keep(self.rt, folder, seed, text)
    }
}
