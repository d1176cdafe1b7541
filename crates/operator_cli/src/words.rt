ghost use Rattle.std.specs.Prelude.{◌≡◌, map, string_bytes, option_map};
ghost use Rattle.operator_cli.specs.Readings as spec;

/// What the words after the program's name ask for.
#[derive(Clone, Copy, Debug)]
pub enum Reading<'a> {
    /// Compile the folder.
    Compile(&'a str),
    /// Compile the folder, and run what was compiled over the input.
    Run(&'a str),
}

impl<'a> Reading<'a> {
    /// The folder that it names.
    pub fn folder(self) -> &'a str
        ensures { result.now ≡ spec.folder_of (spec.shown self.entry) }
    {
        match self {
            Reading::Compile(dir) | Reading::Run(dir) => dir,
        }
    }
}

/// The reading of the words, or none: `compile` or `run`, and one word that doesn't begin with `-`.
pub fn read_words(words: &[String]) -> Option<Reading<'_>>
    ensures { option_map spec.shown result ≡ spec.reading_of (map string_bytes words.now) }
{
    match words {
        [command, dir] => reading_of_two(command.as_str(), dir.as_str()),
        _ => None,
    }
}

fn reading_of_two<'a>(command: &str, dir: &'a str) -> Option<Reading<'a>>
    ensures { option_map spec.shown result ≡ spec.reading_of_two command.now dir.now }
{
    if dir.starts_with("-") {
        None
    } else if command == "compile" {
        Some(Reading::Compile(dir))
    } else if command == "run" {
        Some(Reading::Run(dir))
    } else {
        None
    }
}
