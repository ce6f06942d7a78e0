//! What a call is asked for.

ghost use Rattle.std.specs.Prelude.{◌≡◌};
ghost use Rattle.electrictest.specs.Words as words_ask;

use crate::status::{InputFault, Status};
use crate::words::{Command, WordsFault, command_of, form_words, is_eager, plain_of};
use et_base::Text;
use std::marker::Model;

/// What a call is asked for: a command, or why there is none, and the words, which name what it is about.
#[derive(Drop)]
pub struct Ask<'w> {
    command: Result<Command, WordsFault>,
    words: &'w [Text],
}

impl<'w> Model for Ask<'w> {
    ghost use Rattle.electrictest.specs.Words as words_ask;

    ghost Value = { words_ask.Ask };

    ghost view = { λ a. words_ask.ask a.command a.words.now };

    ghost invariant = { λ a. words_ask.HasWorkers a.command };
}

impl<'w> Ask<'w> {
    /// All that the words ask for.
    pub fn threaded(words: &'w [Text]) -> Ask<'w>
        ensures { result ≡ words_ask.threaded words.now }
    {
        Ask {
            command: command_of(words),
            words,
        }
    }

    /// What the words ask for that is served without threads.
    pub fn plain(words: &'w [Text]) -> Ask<'w>
        ensures asks { result ≡ words_ask.plain words.now }
        ensures served { words_ask.IsServed result.command }
    {
        Ask {
            command: plain_of(command_of(words)),
            words,
        }
    }

    /// The command.
    pub fn command(&self) -> Result<Command, WordsFault>
        ensures command { result ≡ self.now.command }
        ensures workers { words_ask.HasWorkers result }
    {
        self.command
    }

    /// How the words are answered where they ask for nothing.
    pub fn refusal(&self) -> Option<Status>
        ensures { result ≡ words_ask.refusal_of self.now.command }
    {
        match self.command {
            Ok(_) => None,
            Err(WordsFault::NoForm) => Some(Status::Words),
            Err(WordsFault::NeedsRecord) => Some(Status::Input(InputFault::NeedsRecord)),
        }
    }

    /// Whether the suite is asked about without its quiet initialisers.
    pub fn is_eager(&self) -> bool
        ensures { result ≡ words_ask.is_eager self.now.words }
    {
        is_eager(self.words)
    }

    // The word of the form at this place, counted from 0; an empty one where there is none.
    fn word(&self, place: usize) -> &[u8]
        ensures { result.now ≡ words_ask.word_at self.now.words place }
    {
        match form_words(self.words).get(place) {
            Some(word) => word.as_slice(),
            None => &[],
        }
    }

    /// The name of the suite.
    pub fn suite(&self) -> &[u8]
        ensures { result.now ≡ words_ask.word_at self.now.words 1 }
    {
        self.word(1)
    }

    /// The name of the record.
    pub fn record(&self) -> &[u8]
        ensures { result.now ≡ words_ask.word_at self.now.words 2 }
    {
        self.word(2)
    }

    /// The names of an order's tests.
    pub fn order(&self) -> &[u8]
        ensures { result.now ≡ words_ask.word_at self.now.words 3 }
    {
        self.word(3)
    }

    /// The names of the selected tests.
    pub fn selection(&self) -> &[u8]
        ensures { result.now ≡ words_ask.word_at self.now.words 4 }
    {
        self.word(4)
    }
}
