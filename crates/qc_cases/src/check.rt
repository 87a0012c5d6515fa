//! What is asked of a text.

/// How a text is to stand to what is expected.
#[derive(Clone, Copy, PartialEq, Eq)]
pub enum Kind {
    /// It is the expected one.
    Is,
    /// The expected one is in it.
    Tells,
    /// The expected one isn't in it.
    Hides,
    /// It ends in the expected one.
    Ends,
    /// It is that of the case before.
    Same,
}

/// A check of a text.
#[derive(Drop)]
pub struct Check {
    /// How it is to stand to what is expected.
    pub kind: Kind,
    /// What is expected; empty where it is the text of the case before.
    pub expected: String,
}

impl Kind {
    /// The kind of this word.
    pub fn of(word: &str) -> Option<Kind> {
        match word {
            "is" => Some(Kind::Is),
            "tells" => Some(Kind::Tells),
            "hides" => Some(Kind::Hides),
            "ends" => Some(Kind::Ends),
            "same" => Some(Kind::Same),
            _ => None,
        }
    }

    /// Its word.
    pub fn word(self) -> &'static str {
        match self {
            Kind::Is => "is",
            Kind::Tells => "tells",
            Kind::Hides => "hides",
            Kind::Ends => "ends",
            Kind::Same => "same",
        }
    }
}

impl Check {
    /// Whether a text passes, behind a case with the text `before`. Nothing passes a check that expects nothing.
    pub fn passes(&self, text: &str, before: &str) -> bool {
        let expected = self.expected.as_str();
        if self.kind == Kind::Same {
            return text == before;
        }
        !expected.is_empty() && self.kind.holds(text, expected)
    }
}

impl Kind {
    /// Whether a text stands so to what is expected.
    fn holds(self, text: &str, expected: &str) -> bool {
        match self {
            Kind::Is | Kind::Same => text == expected,
            Kind::Tells => text.contains(expected),
            Kind::Hides => !text.contains(expected),
            Kind::Ends => text.ends_with(expected),
        }
    }
}
