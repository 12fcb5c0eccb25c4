//! Writes the start and the end of an HTML page: its title and its style sheet. A function that returns a `Result`
//! fails only if memory runs out.
ghost use Rattle.std.specs.Prelude.{◌≡◌, ◌++◌, string_bytes, IfOk, OnOk};
ghost use Rattle.html.specs.Page.{head_end, head_middle, look, look_end, page_end, page_start, preamble, shown};

use crate::visible_text::put_shown;
use std::alloc::{AllocError, Global};

/// Returns the start of an HTML page with the given title, up to the title on the page. The caller appends the content,
/// and then the end with `finish`.
///
/// # Errors
///
/// Fails if there is no memory for the text.
pub fn start(alloc: Global, title: &str) -> Result<String, AllocError>
    ensures { IfOk result (λ text. string_bytes text ≡ page_start title.now) }
{
    let mut out = String::from_str(alloc, preamble())?;
    out.push_str(look())?;
    out.push_str(look_end())?;
    put_shown(&mut out, title)?;
    out.push_str(head_middle())?;
    put_shown(&mut out, title)?;
    out.push_str(head_end())?;
    Ok(out)
}

/// Appends the end of an HTML page, after its content.
pub fn finish(out: &mut String) -> Result<(), AllocError>
    ensures { OnOk result (string_bytes out.new ≡ string_bytes out.old ++ page_end) }
{
    out.push_str("</main>\n</body>\n</html>\n")
}

/// Returns the text of a page before its style sheet. It says that the page is in English, and allows only the page's
/// own styles and embedded pictures.
#[tactic(auto, unfolding(crate::specs::Page::preamble))]
fn preamble() -> &'static str
    ensures { result.now ≡ preamble }
{
    "<!DOCTYPE html>\n<html lang=\"en\">\n<head>\n<meta charset=\"utf-8\"/>\n\
     <meta http-equiv=\"Content-Security-Policy\" content=\"default-src 'none'; style-src 'unsafe-inline'; \
     img-src data:\"/>\n\
     <meta name=\"viewport\" content=\"width=device-width, initial-scale=1\"/>\n<style>"
}

/// Returns the style sheet of a page. It adapts the page to dark backgrounds and narrow screens. A picture may be as wide
/// as the window. On paper all folded content is shown.
#[tactic(auto, unfolding(crate::specs::Page::look))]
fn look() -> &'static str
    ensures { result.now ≡ look }
{
    ":root{color-scheme:light dark}body{margin:0;background:#fff;color:#111;font:16px/1.5 sans-serif}\
     main{padding:1rem}h1{font-size:1.4rem}h2{font-size:1.15rem;margin-top:2rem}\
     pre{margin:.5rem 0;padding-left:.6rem;border-left:3px solid #8a8a8a;font:13px/1.45 \
     monospace;white-space:pre-wrap;overflow-wrap:anywhere}\
     ul{list-style:none;margin:.2rem 0 .2rem .3rem;padding-left:.8rem;border-left:1px solid #8a8a8a}\
     table{border-collapse:collapse;table-layout:fixed;width:100%}th:nth-child(-n+2){width:4.5rem}\
     th,td{border:1px solid #8a8a8a;padding:.2rem .3rem;text-align:left;vertical-align:top;overflow-wrap:anywhere}\
     summary{padding:.4rem 0;font-weight:bold;cursor:pointer}li summary{padding:.1rem 0;font-weight:normal}\
     h1,h2,p,pre,table,details{max-width:68rem;margin-left:auto;margin-right:auto}\
     figure{max-width:max-content;margin:auto;overflow-x:auto}\
     summary:focus-visible,figure:focus-visible{outline:3px solid #0b5fa5;outline-offset:2px}\
     @media(prefers-color-scheme:dark){body{background:#111;color:#eee}\
     summary:focus-visible,figure:focus-visible{outline-color:#6cb8f5}}@page large{size:A3 landscape;margin:5mm}\
     @media print{body{background:#fff;color:#000}main{padding:0}\
     h1,h2,p,pre,table,details,figure{max-width:none}figure{overflow:visible;break-inside:avoid}.large{page:large}\
     .large::after{content:'';display:block;break-after:page}\
     h2,summary{break-after:avoid}summary{list-style:none}\
     svg{height:auto;max-width:100%;max-height:calc(100vh - 6rem)}.several svg{max-height:none}\
     details::details-content{content-visibility:visible;block-size:auto}}"
}

/// Returns the text of a page between its style sheet and the title of the window.
fn look_end() -> &'static str
    ensures { result.now ≡ look_end }
{
    "</style>\n<title>"
}

/// Returns the text of a page between the title of the window and the title on the page.
fn head_middle() -> &'static str
    ensures { result.now ≡ head_middle }
{
    "</title>\n</head>\n<body>\n<main>\n<h1>"
}

/// Returns the text that ends the title on a page.
fn head_end() -> &'static str
    ensures { result.now ≡ head_end }
{
    "</h1>\n"
}
