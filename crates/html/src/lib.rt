//! Writes HTML pages that show untrusted text. Each page is one file that loads nothing and runs no script. Also
//! escapes text for XML and SVG, and defines the grammar of attributes, tags and elements.
#![tactic(auto)]

mod escapes;
mod laws;
mod markup_laws;
mod page;
mod parts;
mod section;
mod sections;
mod sheet;
mod visible_text;

pub use escapes::put_character;
pub use laws::{
    pages_are_elements, parts_are_content, sections_are_fitted, texts_are_text, texts_are_visible,
};
pub use markup_laws::{elements_are_elements, escapes_are_plain, escapes_are_read_back};
pub use page::{finish, start};
pub use parts::{
    put_begun_lines, put_cell, put_fold_end, put_fold_start, put_head, put_heading, put_item_end,
    put_item_start, put_lines, put_list_end, put_list_start, put_paragraph, put_picture,
    put_row_end, put_row_start, put_table_end, put_table_start, put_text_item,
};
pub use section::Section;
pub use sections::put_sections;
pub use sheet::Sheet;
