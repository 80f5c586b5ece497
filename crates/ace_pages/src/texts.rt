// What the pages tell.
ghost use Rattle.std.specs.Prelude.{◌≡◌, ◌++◌, ℕ, flat_map, codes, OnOk};
ghost use Rattle.ace_pages.specs.Advice.{advice};
ghost use Rattle.ace_pages.specs.Pages.{all_titles, clause_lines, clause_part, kept_line, letters, line_of, page_text, title_line};

use crate::advice::push_advice;
use crate::names::{LETTERS, is_clause, page_name};
use crate::page::Page;
use ace_clauses::{ClauseName, Letter};
use ace_io::NoMemory;
use ace_words::{kept_where, rule_title, wrong_with};

/// Adds the bytes at the end.
pub(crate) fn push(text: &mut Vec<u8>, bytes: &[u8]) -> Result<(), NoMemory>
    ensures { OnOk result (text.new.items ≡ text.old.items ++ bytes.now) }
{
    match text.extend_from_slice(bytes) {
        Ok(()) => Ok(()),
        Err(_) => Err(NoMemory),
    }
}

/// Adds a line: its name, a gap and a sentence.
#[tactic(auto, unfolding(crate::specs::Pages::line_of))]
fn push_line(text: &mut Vec<u8>, name: &[u8], sentence: &[u8]) -> Result<(), NoMemory>
    ensures { OnOk result (text.new.items ≡ text.old.items ++ line_of name.now sentence.now) }
{
    push(text, name)?;
    push(text, b"  ")?;
    push(text, sentence)?;
    push(text, b"\n")
}

/// Adds the line of the rule.
#[tactic(auto, unfolding(crate::specs::Pages::title_line))]
fn push_title(text: &mut Vec<u8>, rule: u8) -> Result<(), NoMemory>
    ensures { OnOk result (text.new.items ≡ text.old.items ++ title_line rule) }
{
    let name = page_name(rule, None);
    push_line(text, name.as_bytes(), rule_title(rule))
}

/// Adds the line that says where the clause is kept.
#[tactic(auto, unfolding(crate::specs::Pages::kept_line))]
fn push_kept(text: &mut Vec<u8>, rule: u8, letter: Letter) -> Result<(), NoMemory>
    ensures { OnOk result (text.new.items ≡ text.old.items ++ kept_line rule letter) }
{
    push(text, b"  ")?;
    let name = page_name(rule, Some(letter));
    push_line(
        text,
        name.as_bytes(),
        kept_where(ClauseName { rule, letter }),
    )
}

/// Adds the line that says where the clause is kept, and one that says by the sentence what is
/// wrong.
fn push_lines(text: &mut Vec<u8>, rule: u8, letter: Letter, sentence: &[u8]) -> Result<(), NoMemory>
    ensures { OnOk result (text.new.items ≡ text.old.items
        ++ (kept_line rule letter ++ line_of (codes "        broken:") sentence.now)) }
{
    push_kept(text, rule, letter)?;
    push_line(text, b"        broken:", sentence)
}

/// Adds the lines of the clause.
fn push_clause(text: &mut Vec<u8>, rule: u8, letter: Letter) -> Result<(), NoMemory>
    ensures { OnOk result (text.new.items ≡ text.old.items ++ clause_lines rule letter) }
{
    let sentence = wrong_with(ClauseName { rule, letter });
    push_lines(text, rule, letter, sentence)
}

/// Adds the lines of the clause, if there is one.
#[tactic(auto, unfolding(crate::specs::Pages::clause_part))]
fn push_part(text: &mut Vec<u8>, rule: u8, letter: Letter) -> Result<(), NoMemory>
    ensures { OnOk result (text.new.items ≡ text.old.items ++ clause_part rule letter) }
{
    if is_clause(rule, letter) {
        push_clause(text, rule, letter)?;
    }
    Ok(())
}

/// Adds the lines of each clause of the rule.
#[tactic(auto, using(crate::proofs::Steps::part_step))]
fn push_clauses(text: &mut Vec<u8>, rule: u8) -> Result<(), NoMemory>
    ensures { OnOk result
        (text.new.items ≡ text.old.items ++ flat_map (clause_part rule) letters) }
{
    for letter in LETTERS {
        push_part(text, rule, letter)?;
    }
    Ok(())
}

/// Adds the lines of each clause of the rule, and where to look first when it is broken.
fn push_rule(text: &mut Vec<u8>, rule: u8) -> Result<(), NoMemory>
    ensures { OnOk result (text.new.items ≡ text.old.items
        ++ (flat_map (clause_part rule) letters ++ advice rule)) }
{
    push_clauses(text, rule)?;
    push_advice(text, rule)
}

/// Adds what the page tells at the end.
///
/// # Errors
///
/// `NoMemory` where there is none for the longer text.
pub fn push_page(text: &mut Vec<u8>, page: Page) -> Result<(), NoMemory>
    ensures { OnOk result (text.new.items ≡ text.old.items ++ page_text page) }
{
    push_title(text, page.rule)?;
    match page.letter {
        None => push_rule(text, page.rule),
        Some(letter) => push_clause(text, page.rule, letter),
    }
}

/// Adds the line of each rule, the least number first.
///
/// # Errors
///
/// `NoMemory` where there is none for the longer text.
#[tactic(auto, using(crate::proofs::Steps::title_start))]
pub fn push_titles(text: &mut Vec<u8>) -> Result<(), NoMemory>
    ensures { OnOk result (text.new.items ≡ text.old.items ++ all_titles) }
{
    for rule in 1..41 {
        push_title(text, rule)?;
    }
    Ok(())
}
