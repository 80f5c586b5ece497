// The phrases of sentences about events.
ghost use Rattle.std.specs.Prelude.{◌≡◌};
ghost use Rattle.ace_event_words.specs.Phrases.{phrase_words};

/// What a port does, and what is added to that.
#[derive(Clone, Copy)]
pub enum Phrase {
    AsksFor,
    Gets,
    GetsTheAnswerTo,
    Acknowledges,
    Sends,
    IsSnooped,
    AnswersTheSnoop,
    IsGrantedTheLine,
    HasMemoryWritten,
    MovesTheLine,
    Loads,
    Stores,
    Retires,
    Identifier,
    InState,
    Exclusive,
    Data,
    Error,
    PassDirty,
    IsShared,
    WasUnique,
}

/// The words for it.
#[tactic(auto, unfolding(crate::specs::Phrases::phrase_words))]
pub(crate) fn phrase_words(phrase: Phrase) -> &'static [u8]
    ensures { result.now ≡ phrase_words phrase }
{
    match phrase {
        Phrase::AsksFor => b" asks for ",
        Phrase::Gets => b" gets ",
        Phrase::GetsTheAnswerTo => b" gets the answer to ",
        Phrase::Acknowledges => b" acknowledges ",
        Phrase::Sends => b" sends ",
        Phrase::IsSnooped => b" is snooped: ",
        Phrase::AnswersTheSnoop => b" answers the snoop, state ",
        Phrase::IsGrantedTheLine => b" is granted the line for ",
        Phrase::HasMemoryWritten => b" has memory written by ",
        Phrase::MovesTheLine => b" moves the line by itself to ",
        Phrase::Loads => b" loads word ",
        Phrase::Stores => b" stores",
        Phrase::Retires => b" retires operation ",
        Phrase::Identifier => b", identifier ",
        Phrase::InState => b", state ",
        Phrase::Exclusive => b", exclusive",
        Phrase::Data => b", data",
        Phrase::Error => b", error",
        Phrase::PassDirty => b", PassDirty",
        Phrase::IsShared => b", IsShared",
        Phrase::WasUnique => b", WasUnique",
    }
}
