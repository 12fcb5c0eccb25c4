//! Laws of the pages of campaigns with oral messages. Each function does nothing, and its contract is the law.
ghost use Rattle.show_page.specs.Laws.{CampaignPagesAreElements, CampaignPagesAreShort, FoldsHideNothing};

/// Does nothing. Its contract says that the page of a campaign with oral messages is a document type line, one XML
/// element, and a line feed. This does not depend on what the scenario's text, the table and the chronicle contain.
pub fn campaign_pages_are_elements()
    ensures { CampaignPagesAreElements }
{}

/// Does nothing. Its contract says that the page of a campaign within its limits has at most 2,000,000 bytes, whatever
/// the scenario's text, the schedule, the table and the letters contain.
pub fn campaign_pages_are_short()
    ensures { CampaignPagesAreShort }
{}

/// Does nothing. Its contract says that a page with room for the lieutenants contains the words for every label that a
/// lieutenant's tree shows. Labels in a closed fold are included.
pub fn folds_hide_nothing()
    ensures { FoldsHideNothing }
{}
