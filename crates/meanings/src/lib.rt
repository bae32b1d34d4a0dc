// What a command line's first word and the numbers after it ask for.
#![tactic(auto)]

ghost use Rattle.std.specs.Prelude.{◌≡◌};
ghost use Rattle.meanings.specs.Meanings.{with_number, asked};

use model::{Change, Notice, Request};

// What a line asks for.
#[derive(Clone, Copy, Debug, PartialEq, Eq)]
pub enum Command {
    Post(Notice),
    Withdraw(u16),
    Enquire(Request),
    Margin(Change),
    Why(u16),
}

// The numbers after a command's first word.
#[derive(Clone, Copy, Debug, PartialEq, Eq)]
pub enum Numbers {
    Zero,
    One(u16),
    Two(u16, u16),
    Three(u16, u16, u16),
}

// Numbers and one more, if there are numbers and one more, and they are not three already.
pub fn with_number(numbers: Option<Numbers>, number: Option<u16>) -> Option<Numbers>
    ensures { result ≡ with_number numbers number }
{
    let number = number?;
    match numbers? {
        Numbers::Zero => Some(Numbers::One(number)),
        Numbers::One(a) => Some(Numbers::Two(a, number)),
        Numbers::Two(a, b) => Some(Numbers::Three(a, b, number)),
        Numbers::Three(_, _, _) => None,
    }
}

// The command of a first word and the numbers after it, if there are numbers.
#[tactic(auto, using(crate::proofs::Comparison::words), unfolding(crate::specs::Meanings::asked, model::specs::Drawn::same))]
pub fn asked(word: &[u8], numbers: Option<Numbers>) -> Option<Command>
    ensures { result ≡ asked word.now numbers }
{
    match (word, numbers?) {
        (b"w", Numbers::One(a)) => Some(Command::Withdraw(a)),
        (b"why", Numbers::One(a)) => Some(Command::Why(a)),
        (b"m", Numbers::Two(connection, next)) => {
            Some(Command::Margin(Change { connection, next }))
        }
        (b"p", Numbers::Three(number, connection, delay)) => Some(Command::Post(Notice {
            number,
            connection,
            delay,
        })),
        (b"q", Numbers::Three(from, to, time)) => Some(Command::Enquire(Request {
            from,
            to,
            time,
        })),
        _ => None,
    }
}
