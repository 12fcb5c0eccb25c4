//! The result of a task on its first file: everything that it prints, or a program or a campaign that it needs for the
//! second file.
use cli_words::{Account, Lieutenants};
use scenario::Campaign;
use verify::Verified;

/// The result of a task on its only or first file: everything that it prints, or a program or a campaign that it needs
/// for the second file.
#[derive(Drop)]
pub enum FirstAnswer {
    /// The whole answer, as text.
    Text(String),
    /// The whole answer, as bytes that need not be text.
    Bytes(Vec<u8>),
    /// A verified program that will run in the setting of the second file. The flag says whether its steps are printed.
    Trial(Verified, bool),
    /// A campaign to play by the schedule in the second file, whether to print its chronicle or its message table, and
    /// the lieutenants whose decisions are explained, if any.
    Play(Campaign, Account, Option<Lieutenants>),
    /// A campaign to run with a thread for each general, and the lieutenants whose decisions are explained, if any.
    Muster(Campaign, Option<Lieutenants>),
    /// A campaign to audit: the second file should be its chronicle. Also the lieutenants whose decisions are
    /// explained, if any.
    Audit(Campaign, Option<Lieutenants>),
    /// A campaign to play by the schedule in the second file and to draw as a diagram.
    Draw(Campaign),
    /// A campaign to draw as a diagram, in the course that the chronicle in the second file records.
    DrawRecorded(Campaign),
    /// A campaign to play by the schedule in the second file and to write as an HTML page, with the text of its
    /// scenario.
    Page(Campaign, String),
    /// A campaign to write as an HTML page, in the course that the chronicle in the second file records, with the text
    /// of its scenario.
    PageRecorded(Campaign, String),
    /// A campaign for which the task prints a schedule that leads to the chronicle in the second file.
    Retrace(Campaign),
}
