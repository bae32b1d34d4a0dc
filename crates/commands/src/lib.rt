// A command line read: bytes in, a command out.
#![tactic(auto)]

ghost use Rattle.std.specs.Prelude.{◌≡◌};
ghost use Rattle.commands.specs.Words.{words};
ghost use Rattle.commands.specs.Commands.{meant, command_of};

use meanings::{Command, Numbers};

// How long a line may be, with its newline: `max_line`.
pub const MAX_LINE: usize = 64;

// The command of a text, a line without its newline.
fn read_words(text: &[u8]) -> Option<Command>
    ensures { result ≡ meant (words text.now) }
{
    let (first, mut rest) = cuts::first_piece(text, b' ');
    let mut numbers = Some(Numbers::Zero);
    while let Some(left) = rest {
        let (word, more) = cuts::first_piece(left, b' ');
        numbers = meanings::with_number(numbers, decimals::read_number(word));
        rest = more;
    }
    meanings::asked(first, numbers)
}

// The command of a line, its newline with it.
#[tactic(auto, using(crate::proofs::Lines::ended_by), unfolding(crate::specs::Commands::command_of))]
pub fn read_command(line: &[u8]) -> Option<Command>
    ensures { result ≡ command_of line.now }
{
    let text = line.strip_suffix(b"\n")?;
    if line.len() > MAX_LINE {
        return None;
    }
    read_words(text)
}
