// What asking for a row answers.
ghost use Rattle.std.specs.Prelude.{◌≡◌};
ghost use Rattle.screen.specs.Screen.{number};

use super::rows::Refusal;

#[derive(Clone, Copy)]
pub enum Answer {
    Shown,
    Refused(Refusal),
}

// Where the row's text is: its start and length in the store, or the length of the number at the start of the scratch.
#[derive(Clone, Copy)]
pub enum Place {
    Store(usize, usize),
    Scratch(usize),
    Refused(Refusal),
}

// The number of document 01 for an answer.
pub fn number_of(answer: Answer) -> u8
    ensures { result ≡ number answer }
{
    match answer {
        Answer::Shown => 0,
        Answer::Refused(why) => why as u8,
    }
}
