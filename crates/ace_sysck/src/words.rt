//! The word of a DVM message (Arm IHI 0022E, C12).

ghost use Rattle.std.specs.Prelude.{◌≡◌, ◌==◌, is_some};
ghost use Rattle.std.specs.Int.{bit_at};
ghost use Rattle.ace_model.specs.Messages.{has_second, is_sync_word, is_message_word, operation_of};

/// A second part follows a first part with this word.
#[tactic(auto, using(crate::proofs::WordLaws::second_is))]
pub fn has_second(word: u32) -> bool
    ensures { result ≡ has_second word }
{
    word % 2 == 1
}

/// The word has an operation.
#[tactic(auto, using(crate::proofs::WordLaws::operation_is))]
fn has_operation(word: u32) -> bool
    ensures { result ≡ is_some (operation_of word) }
{
    let code = word / 4096 % 8;
    code <= 4 || code == 6
}

/// The word is that of a Sync.
#[tactic(auto, using(crate::proofs::WordLaws::sync_is))]
pub fn is_sync_word(word: u32) -> bool
    ensures { result ≡ is_sync_word word }
{
    word / 4096 % 8 == 4
}

/// Bit 15.
fn is_marked(word: u32) -> bool
    ensures { result ≡ (bit_at word 15 == 1) }
{
    word / 32768 % 2 == 1
}

/// The word is one of a first part: bit 15 is 1 exactly for a Sync, and no second part follows a
/// Sync.
pub fn is_message_word(word: u32) -> bool
    ensures { result ≡ is_message_word word }
{
    has_operation(word)
        && is_marked(word) == is_sync_word(word)
        && !(is_sync_word(word) && has_second(word))
}
