// What words that name pages are told.
ghost use Rattle.std.specs.Prelude.{◌≡◌, [], map, string_bytes, option_map, IfOk};
ghost use Rattle.ace_pages.specs.Told.{pages_told, told_onto};
ghost use Rattle.ace_pages.specs.Pages.{all_titles};

use crate::names::page_of;
use crate::texts::{push_page, push_titles};
use ace_io::NoMemory;
use std::alloc::Global;

/// The pages that the words name, if each names one.
#[tactic(auto, using(crate::proofs::Telling::told_steps))]
fn named_pages(alloc: Global, words: &[String]) -> Result<Option<Vec<u8>>, NoMemory>
    ensures { IfOk result (λ told. option_map (λ text. text.items) told
        ≡ told_onto [] (map string_bytes words.now)) }
{
    let mut text = Vec::new(alloc);
    for word in words {
        match page_of(word.as_str()) {
            Some(page) => push_page(&mut text, page)?,
            None => return Ok(None),
        }
    }
    Ok(Some(text))
}

/// The lines of all rules.
fn titles(alloc: Global) -> Result<Vec<u8>, NoMemory>
    ensures { IfOk result (λ text. text.items ≡ all_titles) }
{
    let mut text = Vec::new(alloc);
    push_titles(&mut text)?;
    Ok(text)
}

/// What the words are told: the pages that they name, in their order, and without a word the lines
/// of all rules. Nothing where a word names no page.
///
/// # Errors
///
/// `NoMemory` where there is none for the text.
pub fn pages_text(alloc: Global, words: &[String]) -> Result<Option<Vec<u8>>, NoMemory>
    ensures { IfOk result (λ told. option_map (λ text. text.items) told
        ≡ pages_told (map string_bytes words.now)) }
{
    if words.is_empty() {
        return Ok(Some(titles(alloc)?));
    }
    named_pages(alloc, words)
}
