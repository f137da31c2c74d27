//! How the program was asked to run.

/// How the program was asked to run.
#[derive(Clone, Copy, Drop)]
pub enum Mode {
    /// Each piece of work once; what is printed is the same in every run.
    Once,
    /// Each piece of work often enough to measure its time.
    Time,
}

impl Mode {
    /// Returns the mode that the words of the process name. The first word is the name of the process.
    pub fn named(words: &[String]) -> Option<Mode> {
        match words {
            [] | [_] => Some(Mode::Once),
            [_, word] if word.as_str() == "time" => Some(Mode::Time),
            _ => None,
        }
    }

    /// Returns how often something is done that is done so often to measure its time.
    pub fn often(self, times: u32) -> u32 {
        match self {
            Mode::Once => 1,
            Mode::Time => times,
        }
    }

    /// Returns how often a round does each piece of work.
    pub fn repetitions(self) -> u32 {
        self.often(200)
    }
}
