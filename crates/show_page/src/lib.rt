//! Writes the HTML page of a campaign, with oral or with signed messages.
#![tactic(auto)]

mod accesses;
mod account;
mod calls;
mod laws;
mod lieutenants;
mod nested_lists;
mod printers;
mod room;
mod scenario;
mod schedule;
mod sections;
mod signed_account;
mod signed_laws;
mod signed_verdict;
mod story;
mod verdict;

pub use accesses::accesses_section;
pub use account::{chronicle_section, page_text, picture_section, sheet_of};
pub use laws::{campaign_pages_are_elements, campaign_pages_are_short, folds_hide_nothing};
pub use room::ROOM_FOR_SECTIONS;
pub use scenario::scenario_section;
pub use schedule::schedule_section;
pub use sections::{lieutenant_name, lieutenants_roomed, programs_section};
pub use signed_account::signed_page_text;
pub use signed_laws::{signed_pages_are_elements, signed_pages_are_short};
pub use verdict::{bound_told, put_verdict_told};
