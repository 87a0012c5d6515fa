//! Texts that have names.

use anyhow::{Result, bail};
use std::alloc::{AllocError, Global};

/// A text and its name.
#[derive(Drop)]
struct Name {
    name: String,
    text: String,
}

impl Name {
    /// This text with this name.
    fn new(alloc: Global, name: &str, text: &str) -> Result<Name, AllocError> {
        let name = String::from_str(alloc, name)?;
        let text = String::from_str(alloc, text)?;
        Ok(Name { name, text })
    }
}

/// The texts that have names so far.
#[derive(Drop)]
pub struct Names {
    list: Vec<Name>,
}

impl Names {
    /// No names.
    pub fn new(alloc: Global) -> Names {
        Names {
            list: Vec::new(alloc),
        }
    }

    /// The text with this name.
    fn text(&self, name: &str) -> Option<&str> {
        for known in &self.list {
            if known.name.as_str() == name {
                return Some(known.text.as_str());
            }
        }
        None
    }

    /// Gives a text a name: `NAME TEXT`. A name that a text has already is refused.
    pub fn add(&mut self, alloc: Global, words: &str) -> Result<()> {
        let Some((name, text)) = words.split_once(" ") else {
            bail!("a name without a text");
        };
        if self.text(name).is_some() {
            bail!("a name that stands twice");
        }
        let named = Name::new(alloc, name, text)?;
        self.push(named)?;
        Ok(())
    }

    /// Puts a text with its name behind the others.
    fn push(&mut self, named: Name) -> Result<(), AllocError> {
        self.list.push(named)?;
        Ok(())
    }

    /// Puts this line behind a text, with their texts in the place of names.
    pub fn put(&self, to: &mut String, line: &str) -> Result<()> {
        let mut rest = line;
        for _ in 0..line.len() {
            let Some((before, behind)) = rest.split_once("{") else {
                break;
            };
            let Some((name, after)) = behind.split_once("}") else {
                bail!("a brace that isn't closed");
            };
            to.push_str(before)?;
            self.put_text(to, name)?;
            rest = after;
        }
        to.push_str(rest)?;
        Ok(())
    }

    /// Puts the text with this name behind another one.
    fn put_text(&self, to: &mut String, name: &str) -> Result<()> {
        match self.text(name) {
            Some(text) => {
                to.push_str(text)?;
                Ok(())
            }
            None => bail!("a name that no text has: {name}"),
        }
    }
}
