ghost use Rattle.std.specs.Prelude.{◌≡◌};
ghost use Rattle.op_words.specs.Readings as spec;

use op_base::Text;

/// A part of the configuration that is written alone.
#[derive(Clone, Copy, Debug, PartialEq, Eq)]
pub enum Part {
    Alertmanager,
    Prometheus,
    Rules,
}

/// What the words after the program's name ask for.
#[derive(Debug, PartialEq, Eq, Drop)]
pub enum Reading {
    /// The folder's objects are read, and the configuration is written, or a part of it.
    Compile {
        dir: Text,
        part: Option<Part>,
    },
    /// The same, and then the changes that the input's lines ask for. The configuration is written at the end, or
    /// after the folder and after each change.
    Apply {
        dir: Text,
        part: Option<Part>,
        each: bool,
    },
    /// The folder's objects are read, and the input's lines are run over them.
    Run {
        dir: Text,
    },
}

/// What the words after the command say.
#[derive(Drop)]
pub(crate) struct Given {
    pub(crate) dir: Text,
    pub(crate) part: Option<Part>,
    pub(crate) each: bool,
}

impl Given {
    /// What the command does with it, or none where there is no such command, or it has no such option.
    pub(crate) fn read_by(self, command: &str) -> Option<Reading>
        ensures { result ≡ spec.reading_by command.now self }
    {
        match command {
            "compile" => self.compiling(),
            "apply" => Some(self.applying()),
            "run" => self.running(),
            _ => None,
        }
    }

    fn compiling(self) -> Option<Reading>
        ensures { result ≡ spec.compiling self }
    {
        let Given { dir, part, each } = self;
        if each {
            None
        } else {
            Some(Reading::Compile { dir, part })
        }
    }

    fn applying(self) -> Reading
        ensures { result ≡ spec.applying self }
    {
        let Given { dir, part, each } = self;
        Reading::Apply { dir, part, each }
    }

    fn running(self) -> Option<Reading>
        ensures { result ≡ spec.running self }
    {
        let Given { dir, part, each } = self;
        if each || part.is_some() {
            None
        } else {
            Some(Reading::Run { dir })
        }
    }
}

/// The part that has this name.
pub(crate) fn part_named(name: &str) -> Option<Part>
    ensures { result ≡ spec.part_named name.now }
{
    match name {
        "alertmanager" => Some(Part::Alertmanager),
        "prometheus" => Some(Part::Prometheus),
        "rules" => Some(Part::Rules),
        _ => None,
    }
}
