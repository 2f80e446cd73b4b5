// Texts that contracts see as their bytes.
ghost use Rattle.std.specs.Prelude.{◌≡◌, IfOk, map};

use std::alloc::{AllocError, Global};
use std::marker::Model;

/// A text, which contracts see as its bytes.
#[derive(Drop)]
pub struct Text {
    inner: String,
}

impl Model for Text {
    ghost use Rattle.std.specs.Prelude.{List, ℕ};
    ghost use Rattle.std.specs.String.{string_bytes};

    ghost Value = { List ℕ };

    ghost view = { λ t. string_bytes t.inner };
}

impl Text {
    pub fn from_str(alloc: Global, text: &str) -> Result<Text, AllocError>
        ensures { IfOk result (λ t. t ≡ text.now) }
    {
        Ok(Text {
            inner: String::from_str(alloc, text)?,
        })
    }

    pub fn as_str(&self) -> &str
        ensures { result.now ≡ self.now }
    {
        self.inner.as_str()
    }
}

/// Texts in their order.
#[derive(Drop)]
pub struct Texts {
    inner: Vec<Text>,
}

impl Model for Texts {
    ghost use Rattle.std.specs.Prelude.{List, ℕ};

    ghost Value = { List (List ℕ) };

    ghost view = { λ t. t.inner.items };
}

impl Texts {
    pub fn from_strs(alloc: Global, texts: &[&str]) -> Result<Texts, AllocError>
        ensures { IfOk result (λ t. t ≡ map (λ s. s.now) texts.now) }
    {
        let mut inner = Vec::new(alloc);
        for text in texts {
            inner.push(Text::from_str(alloc, text)?)?;
        }
        Ok(Texts { inner })
    }

    pub fn as_slice(&self) -> &[Text]
        ensures { result.now ≡ self.now }
    {
        self.inner.as_slice()
    }
}
