// Where to look first when a rule is broken.
ghost use Rattle.std.specs.Prelude.{◌≡◌, ◌++◌, OnOk};
ghost use Rattle.ace_pages.specs.Advice.{advice, is_told, labelled, labelled_part, of_designs, of_recorders};

use crate::texts::push;
use ace_advice::{in_a_design, in_a_recorder};
use ace_io::NoMemory;

/// How designs break the rule.
#[tactic(auto, unfolding(crate::specs::Advice::of_designs))]
fn of_designs(rule: u8) -> &'static str
    ensures { result.now ≡ of_designs rule }
{
    in_a_design(rule)
}

/// What to look at in a recorder.
#[tactic(auto, unfolding(crate::specs::Advice::of_recorders))]
fn of_recorders(rule: u8) -> &'static str
    ensures { result.now ≡ of_recorders rule }
{
    in_a_recorder(rule)
}

/// Adds a line: a label of 17 columns and what is told.
#[tactic(auto, unfolding(crate::specs::Advice::labelled))]
fn push_labelled(text: &mut Vec<u8>, label: &[u8], told: &[u8]) -> Result<(), NoMemory>
    ensures { OnOk result (text.new.items ≡ text.old.items ++ labelled label.now told.now) }
{
    push(text, label)?;
    push(text, told)?;
    push(text, b"\n")
}

/// There is something to tell.
#[tactic(auto, unfolding(crate::specs::Advice::is_told))]
fn is_told(told: &[u8]) -> bool
    ensures { result ≡ is_told told.now }
{
    !told.is_empty()
}

/// Adds the line, if there is something to tell.
#[tactic(auto, unfolding(crate::specs::Advice::labelled_part))]
fn push_part(text: &mut Vec<u8>, label: &[u8], told: &[u8]) -> Result<(), NoMemory>
    ensures { OnOk result (text.new.items ≡ text.old.items ++ labelled_part label.now told.now) }
{
    if is_told(told) {
        push_labelled(text, label, told)?;
    }
    Ok(())
}

/// Adds both lines for the rule, with an empty line before them.
///
/// # Errors
///
/// `NoMemory` where there is none for the longer text.
#[tactic(auto, unfolding(crate::specs::Advice::advice))]
pub fn push_advice(text: &mut Vec<u8>, rule: u8) -> Result<(), NoMemory>
    ensures { OnOk result (text.new.items ≡ text.old.items ++ advice rule) }
{
    push(text, b"\n")?;
    push_labelled(text, b"  in a design    ", of_designs(rule).as_bytes())?;
    push_part(text, b"  in a recorder  ", of_recorders(rule).as_bytes())
}
