ghost use Rattle.std.specs.Prelude.{◌≡◌};
ghost use Rattle.std.specs.List.{list_all};
ghost use Rattle.pl_text.specs.Bytes.{is_name_byte};
ghost use Rattle.pl_text.specs.Words.{word_text, is_written, word_of, is_word, is_name};

use crate::class::{Class, class_of, is_name_byte};

/// A reserved word.
#[derive(Clone, Copy, PartialEq, Eq)]
pub enum Word {
    Horizon,
    Lead,
    Capacity,
    Level,
    State,
    Start,
    End,
    Step,
    Any,
    Kind,
    Param,
    Default,
    Duration,
    Use,
    Raise,
    Lower,
    Set,
    Must,
    At,
    Link,
    Alternative,
    Slot,
    Order,
    Parent,
    Min,
    Max,
    Begin,
}

const WORDS: [Word; 27] = [
    Word::Horizon,
    Word::Lead,
    Word::Capacity,
    Word::Level,
    Word::State,
    Word::Start,
    Word::End,
    Word::Step,
    Word::Any,
    Word::Kind,
    Word::Param,
    Word::Default,
    Word::Duration,
    Word::Use,
    Word::Raise,
    Word::Lower,
    Word::Set,
    Word::Must,
    Word::At,
    Word::Link,
    Word::Alternative,
    Word::Slot,
    Word::Order,
    Word::Parent,
    Word::Min,
    Word::Max,
    Word::Begin,
];

impl Word {
    /// The word as it is written.
    pub fn text(self) -> &'static str
        ensures { result.now ≡ word_text self }
    {
        match self {
            Word::Horizon => "horizon",
            Word::Lead => "lead",
            Word::Capacity => "capacity",
            Word::Level => "level",
            Word::State => "state",
            Word::Start => "start",
            Word::End => "end",
            Word::Step => "step",
            Word::Any => "any",
            Word::Kind => "kind",
            Word::Param => "param",
            Word::Default => "default",
            Word::Duration => "duration",
            Word::Use => "use",
            Word::Raise => "raise",
            Word::Lower => "lower",
            Word::Set => "set",
            Word::Must => "must",
            Word::At => "at",
            Word::Link => "link",
            Word::Alternative => "alternative",
            Word::Slot => "slot",
            Word::Order => "order",
            Word::Parent => "parent",
            Word::Min => "min",
            Word::Max => "max",
            Word::Begin => "begin",
        }
    }
}

fn is_written(word: Word, text: &[u8]) -> bool
    ensures { result ≡ is_written text.now word }
{
    word.text().as_bytes() == text
}

/// The reserved word with this text.
#[tactic(auto, unfolding(crate::specs::Words::word_of))]
pub fn word_of(text: &[u8]) -> Option<Word>
    ensures { result ≡ word_of text.now }
{
    WORDS.iter().copied().find(|word| is_written(*word, text))
}

fn is_name_rest(bytes: &[u8]) -> bool
    ensures { result ≡ list_all is_name_byte bytes.now }
{
    bytes.iter().all(|byte| is_name_byte(*byte))
}

/// Whether the bytes have the form of a name, as a reserved word has too.
fn is_word(text: &[u8]) -> bool
    ensures { result ≡ is_word text.now }
{
    match text {
        [first, rest @ ..] => {
            matches!(class_of(*first), Class::Letter) && rest.len() < 32 && is_name_rest(rest)
        }
        [] => false,
    }
}

/// Whether the bytes are a name. A reserved word is none.
pub fn is_name(text: &[u8]) -> bool
    ensures { result ≡ is_name text.now }
{
    is_word(text) && word_of(text).is_none()
}
