//! `--campaign`: prints the campaign of one seed, whether it is broken or not.
ghost use Rattle.std.specs.Prelude.{IfErr, OnOk};
ghost use Rattle.surveyor.specs.Asked.{IsSurvey};
ghost use Rattle.surveyor.specs.Ends.{IsUnended, NoneIsRefused};
ghost use Rattle.surveyor.specs.Printed.{IsCampaignPrinted};

use crate::family::family_of;
use crate::fault::SurveyFailure;
use crate::printer::print;
use crate::task::OneCampaign;
use streams::Output;
use surveys::campaign_text;

/// Prints the campaign that the seed gives in the family of the survey, as the text of a scenario. A survey plays the
/// same text for this seed.
///
/// # Errors
///
/// Fails if the family's file is rejected, if the output cannot be written, or if memory runs out.
#[tactic(auto, using(crate::proofs::FaultLemmas::untaken, crate::proofs::FaultLemmas::unended_printing, crate::proofs::FaultLemmas::unended_by_memory, crate::proofs::PrintLemmas::campaign_printed))]
pub fn print_campaign<O: Output>(
    rt: &HostRuntime,
    out: &mut O,
    asked: &OneCampaign,
) -> Result<(), SurveyFailure>
    requires { IsSurvey asked.now.survey }
    ensures printed { OnOk result (IsCampaignPrinted asked.now (O.contents out.old) (O.contents out.new)) }
    ensures refused { IfErr result (IsUnended asked.now.survey NoneIsRefused) }
{
    let family = family_of(rt, &asked.survey)?;
    let text = campaign_text(rt.alloc(), &family, asked.seed)?;
    print(out, text.as_str())
}
