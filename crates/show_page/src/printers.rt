//! Hints for the readers of a page: where to find a part of the campaign for which the page has no room.
ghost use Rattle.std.specs.Prelude.{◌≡◌};
ghost use Rattle.show_page.specs.Printers.{accesses_printer, chronicle_printer, lieutenants_printer, picture_printer, programs_printer, scenario_printer, schedule_printer};

/// Returns the hint that says where to find the scenario.
#[tactic(auto, unfolding(crate::specs::Printers::scenario_printer))]
pub(crate) fn scenario_printer() -> &'static str
    ensures { result.now ≡ scenario_printer }
{
    "it is in the scenario's file, and in the files that the scenario names."
}

/// Returns the hint that says where to find the schedule.
#[tactic(auto, unfolding(crate::specs::Printers::schedule_printer))]
pub(crate) fn schedule_printer() -> &'static str
    ensures { result.now ≡ schedule_printer }
{
    "it is the file of --schedule."
}

/// Returns the hint that says how to print what the verifier knows about a program.
#[tactic(auto, unfolding(crate::specs::Printers::programs_printer))]
pub(crate) fn programs_printer() -> &'static str
    ensures { result.now ≡ programs_printer }
{
    "byzlab check --explain, with --asm or --elf, prints what is known about a program in a file of its own."
}

/// Returns the hint that says how to print the diagram.
#[tactic(auto, unfolding(crate::specs::Printers::picture_printer))]
pub(crate) fn picture_printer() -> &'static str
    ensures { result.now ≡ picture_printer }
{
    "byzlab draw writes it, with --schedule or --chronicle as here."
}

/// Returns the hint that says how to print the explanation of the lieutenants' decisions.
#[tactic(auto, unfolding(crate::specs::Printers::lieutenants_printer))]
pub(crate) fn lieutenants_printer() -> &'static str
    ensures { result.now ≡ lieutenants_printer }
{
    "byzlab play --explain, with --schedule as here, or byzlab audit --explain of the chronicle says why they \
     decide so."
}

/// Returns the hint that says where to find the accesses to the board.
#[tactic(auto, unfolding(crate::specs::Printers::accesses_printer))]
pub(crate) fn accesses_printer() -> &'static str
    ensures { result.now ≡ accesses_printer }
{
    "they are in the chronicle: the file of --chronicle, or what byzlab play prints, with --schedule as here."
}

/// Returns the hint that says where to find the chronicle.
#[tactic(auto, unfolding(crate::specs::Printers::chronicle_printer))]
pub(crate) fn chronicle_printer() -> &'static str
    ensures { result.now ≡ chronicle_printer }
{
    "it is the file of --chronicle, or what byzlab play prints, with --schedule as here."
}
