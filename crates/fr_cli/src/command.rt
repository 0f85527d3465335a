//! What the words of a command line ask for.
ghost use Rattle.std.specs.Prelude.{◌≡◌};
ghost use Rattle.std.specs.Option.{option_map};
ghost use Rattle.fr_cli.specs.Command.{asked, names_file, asked_for, over_one, over_two};
ghost use Rattle.fr_cli.specs.Requests.{command_in};

/// What the words ask for, with the files that they name.
#[derive(Clone, Copy)]
pub enum Request<'a> {
    /// `run PROGRAM SCRIPT`.
    Run { program: &'a str, script: &'a str },
    /// `afresh PROGRAM SCRIPT`.
    Afresh { program: &'a str, script: &'a str },
    /// `check PROGRAM`.
    Check { program: &'a str },
}

/// Whether a word can name a file: it doesn't begin with `-`.
fn names_file(word: &str) -> bool
    ensures { result ≡ names_file word.now }
{
    match word.as_bytes().first() {
        Some(b) => *b != b'-',
        None => true,
    }
}

/// What a word asks for with a program and a script.
fn request_with_script<'a>(word: &str, program: &'a str, script: &'a str) -> Option<Request<'a>>
    ensures { option_map command_in result ≡ asked_for word.now (over_two program.now script.now) }
{
    match word {
        "run" => Some(Request::Run { program, script }),
        "afresh" => Some(Request::Afresh { program, script }),
        _ => None,
    }
}

/// What a word asks for with a program alone.
fn request_with_program<'a>(word: &str, program: &'a str) -> Option<Request<'a>>
    ensures { option_map command_in result ≡ asked_for word.now (over_one program.now) }
{
    match word {
        "check" => Some(Request::Check { program }),
        _ => None,
    }
}

/// What the words ask for, or none where they are no command.
pub fn request_of(words: &[String]) -> Option<Request<'_>>
    ensures { option_map command_in result ≡ asked words.now }
{
    match words {
        [word, program, script] if names_file(program.as_str()) && names_file(script.as_str()) => {
            request_with_script(word.as_str(), program.as_str(), script.as_str())
        }
        [word, program] if names_file(program.as_str()) => {
            request_with_program(word.as_str(), program.as_str())
        }
        _ => None,
    }
}
