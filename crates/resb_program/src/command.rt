//! What the words behind the program's name ask for.
//! How the words are had, and what is done with the files that they name, is in `resb_tool`.
ghost use Rattle.std.specs.Prelude.{map, string_bytes};
ghost use Rattle.resb_program.specs.Commands.{Asks};

/// What the program is asked to do.
#[derive(Clone, Copy)]
pub enum Command<'a> {
    /// No words: a text on standard input, the hex line of its file on standard output.
    Stream,
    /// `compile IN OUT`: the text of file IN, its file written to OUT.
    Compile { input: &'a str, output: &'a str },
    /// `check IN`: the number of resources of file IN.
    Check { input: &'a str },
}

/// What the words after the program's name ask for. Any others than those above are no command.
pub fn command_of(words: &[String]) -> Option<Command<'_>>
    ensures { Asks (map string_bytes words.entry.now) result }
{
    match words {
        [] => Some(Command::Stream),
        [word, input, output] if word.as_str() == "compile" => Some(Command::Compile {
            input: input.as_str(),
            output: output.as_str(),
        }),
        [word, input] if word.as_str() == "check" => Some(Command::Check {
            input: input.as_str(),
        }),
        _ => None,
    }
}
