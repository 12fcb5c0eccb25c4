//! Computes the result of each subcommand on its first file: the text to print, or a program or a campaign that it
//! needs for the second file.
ghost use Rattle.std.specs.Prelude.{IfOk, IfErr, None};
ghost use Rattle.cli_tasks.specs.TaskAnswers.{ComesTo};
ghost use Rattle.cli_tasks.specs.TaskRefusals.{Refuses};

use crate::assembly::{assembled, assembled_raw, disassembled};
use crate::campaigns::{any_campaign, campaign, campaign_with_text};
use crate::decisions::{decided, explained};
use crate::explained_campaign::played_campaign;
use crate::exploration::explored as orders_of;
use crate::first_answer::FirstAnswer;
use crate::forms::{filled, formed};
use crate::parts::{assembled_partly, assembled_partly_raw, disassembled_partly};
use crate::program_check::accepted_in;
use crate::refusal::InputRefusal;
use crate::refutations::shown_refutation;
use crate::rule_certificates::certificate;
use crate::schedules::arranged;
use crate::searches::exhausted;
use crate::texts::as_text;
use crate::tree_pictures::pictured;
use crate::trials::checked_in;
use cli_words::{Accesses, Account, Course, Spelling, Task};
use show_tree::View;
use std::alloc::Global;

/// Computes the result of a task on its only or first file, which has the bytes `bytes`. The result is everything that
/// the task prints, or a program or a campaign that it needs for the second file. A task that reads no file ignores the
/// bytes.
///
/// # Errors
///
/// Fails with the reason why the task rejects the file or a word of the command line, and with `Memory` if memory runs
/// out.
pub fn answer(alloc: Global, task: &Task, bytes: &[u8]) -> Result<FirstAnswer, InputRefusal>
    ensures answered { IfOk result (ComesTo task.now bytes.now) }
    ensures refused { IfErr result (Refuses task.now bytes.now) }
{
    match task {
        Task::Check {
            notation,
            context: None,
            explained,
            traced,
            ..
        } => Ok(FirstAnswer::Text(checked_in(alloc, notation, *explained, *traced, bytes)?)),
        Task::Check {
            notation,
            context: Some(_),
            traced,
            ..
        } => Ok(FirstAnswer::Trial(accepted_in(alloc, notation, bytes)?, *traced)),
        Task::Assemble {
            spelling: Spelling::Hex,
            ..
        } => Ok(FirstAnswer::Text(assembled(alloc, as_text(bytes)?)?)),
        Task::Assemble {
            spelling: Spelling::Raw,
            ..
        } => Ok(FirstAnswer::Bytes(assembled_raw(alloc, as_text(bytes)?)?)),
        Task::AssemblePartly {
            spelling: Spelling::Hex,
            ..
        } => Ok(FirstAnswer::Text(assembled_partly(alloc, as_text(bytes)?)?)),
        Task::AssemblePartly {
            spelling: Spelling::Raw,
            ..
        } => Ok(FirstAnswer::Bytes(assembled_partly_raw(alloc, as_text(bytes)?)?)),
        Task::Disassemble {
            notation,
            units,
            ..
        } => Ok(FirstAnswer::Text(disassembled(alloc, notation, *units, bytes)?)),
        Task::DisassemblePartly { notation, .. } => {
            Ok(FirstAnswer::Text(disassembled_partly(alloc, notation, bytes)?))
        }
        Task::Book(_) => Ok(FirstAnswer::Text(decided(alloc, as_text(bytes)?)?)),
        Task::ExplainDecisions { traitors, .. } => {
            Ok(FirstAnswer::Text(explained(alloc, as_text(bytes)?, traitors.as_slice())?))
        }
        Task::Form {
            generals,
            bound,
            commander,
            filling: None,
        } => Ok(FirstAnswer::Text(formed(
            alloc,
            generals.as_str(),
            bound.as_str(),
            commander.as_str(),
        )?)),
        Task::Form {
            generals,
            bound,
            commander,
            filling: Some(filling),
        } => Ok(FirstAnswer::Text(filled(
            alloc,
            generals.as_str(),
            bound.as_str(),
            commander.as_str(),
            *filling,
        )?)),
        Task::Refute {
            generals,
            bound,
            commander,
            rule,
            story,
            staged,
        } => Ok(FirstAnswer::Text(shown_refutation(
            alloc,
            generals.as_str(),
            bound.as_str(),
            commander.as_str(),
            *rule,
            *story,
            *staged,
        )?)),
        Task::Exhaust {
            generals,
            bound,
            traitors,
            commander,
            rule,
            staged,
        } => Ok(FirstAnswer::Text(exhausted(
            alloc, *generals, *bound, *traitors, *commander, *rule, *staged,
        )?)),
        Task::Certify {
            notation,
            generals,
            ..
        } => Ok(FirstAnswer::Text(certificate(alloc, notation, bytes, *generals)?)),
        Task::Tree {
            general,
            traitors,
            drawing,
            depth,
            folded,
            ..
        } => {
            let view = View {
                depth: *depth,
                folds: *folded,
                order: None,
            };
            let text = as_text(bytes)?;
            Ok(FirstAnswer::Text(pictured(
                alloc,
                text,
                *general,
                traitors.as_slice(),
                *drawing,
                view,
            )?))
        }
        Task::Explore { most, .. } => {
            Ok(FirstAnswer::Text(orders_of(alloc, &campaign(alloc, bytes)?, *most)?))
        }
        Task::Play {
            account,
            explained,
            ..
        } => Ok(FirstAnswer::Play(
            played_campaign(alloc, bytes, *account, *explained)?,
            *account,
            *explained,
        )),
        Task::Muster { explained, .. } => {
            let campaign = played_campaign(alloc, bytes, Account::Chronicle, *explained)?;
            Ok(FirstAnswer::Muster(campaign, *explained))
        }
        Task::Audit { explained, .. } => Ok(FirstAnswer::Audit(
            played_campaign(alloc, bytes, Account::Chronicle, *explained)?,
            *explained,
        )),
        Task::Draw {
            course: Course::Scheduled(_),
            ..
        } => Ok(FirstAnswer::Draw(any_campaign(alloc, bytes)?)),
        Task::Draw {
            course: Course::Recorded(_),
            ..
        } => Ok(FirstAnswer::DrawRecorded(any_campaign(alloc, bytes)?)),
        Task::Page {
            course: Course::Scheduled(_),
            ..
        } => {
            let (campaign, text) = campaign_with_text(alloc, bytes)?;
            Ok(FirstAnswer::Page(campaign, text))
        }
        Task::Page {
            course: Course::Recorded(_),
            ..
        } => {
            let (campaign, text) = campaign_with_text(alloc, bytes)?;
            Ok(FirstAnswer::PageRecorded(campaign, text))
        }
        Task::Retrace {
            accesses: Accesses::OfChronicle(_),
            ..
        } => Ok(FirstAnswer::Retrace(any_campaign(alloc, bytes)?)),
        Task::Retrace {
            accesses: Accesses::Listed(list),
            ..
        } => Ok(FirstAnswer::Text(arranged(alloc, bytes, list.as_str())?)),
    }
}
