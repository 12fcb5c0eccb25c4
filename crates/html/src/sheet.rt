//! Defines the paper on which a picture of an HTML page is printed.

/// The paper on which a picture is printed. A picture is made smaller until it is as wide as its sheet, or narrower.
#[derive(Clone, Copy, Drop)]
pub enum Sheet {
    /// A sheet like those of the page's text. A picture that is higher than the sheet is made smaller.
    Small,
    /// A sheet of A3 in landscape. A picture that is higher than the sheet is made smaller.
    Large,
    /// Sheets of A3 in landscape, as many as the picture needs.
    Several,
}
