//! Laws of schedules. Each function does nothing, and its contract is the law.
ghost use Rattle.campaign_schedules.specs.Keeping.{KeptSchedulesPlay};
ghost use Rattle.campaign_schedules.specs.Reading.{SchedulesAreRead};

use campaign_orders::recall_short;
use round::Scenario;

/// States that parsing the text of a schedule gives this schedule again. The schedule has at most 5 lines, and its text
/// at most 1,048,576 bytes. Each entry names a general from 0 to 12, and a number of times from 1 to 4,096.
pub fn schedules_are_read()
    ensures { SchedulesAreRead }
{}

/// States that every schedule which an exploration of the scenario keeps for an outcome leads to this outcome when it
/// is played.
pub fn kept_schedules_play(scenario: &Scenario)
    ensures { KeptSchedulesPlay scenario.now }
{
    scenario.recall();
    recall_short(scenario);
}
