ghost use Rattle.std.specs.Prelude.{◌≡◌, IfOk};
ghost use Rattle.tt_frames.specs.Rests.{Takes, is_empty};

use std::alloc::Global;
use std::marker::Model;
use std::sync::Arc;
use tt_text::{NoMemory, Text, Texts};

/// What is left of a list of texts that is taken from the front. Contracts see what is left. A copy takes no memory.
#[derive(Debug, Drop)]
pub struct Rest {
    texts: Arc<Texts>,
    at: usize,
}

impl Model for Rest {
    ghost use Rattle.std.specs.Prelude.{ℕ, List, drop};
    ghost use Rattle.std.specs.Arc.{arc_value};

    ghost Value = { List (List ℕ) };

    ghost view = { λ rest. drop rest.at (arc_value rest.texts) };
}

impl Rest {
    /// All of the texts.
    ///
    /// `NoMemory` if memory is refused.
    pub fn new(alloc: Global, texts: Texts) -> Result<Self, NoMemory>
        ensures all { IfOk result (λ rest. rest ≡ texts) }
    {
        Ok(Rest {
            texts: Arc::new(alloc, texts)?,
            at: 0,
        })
    }

    /// Takes the first that is left; `None` exactly if none is.
    ///
    /// `NoMemory` if memory is refused; then nothing has changed.
    pub fn take(&mut self) -> Result<Option<Text>, NoMemory>
        ensures taken { IfOk result (λ first. Takes first self.old self.new) }
    {
        match self.texts.as_slice().get(self.at) {
            None => Ok(None),
            Some(text) => {
                let text = text.copy()?;
                self.at += 1;
                Ok(Some(text))
            }
        }
    }

    /// Whether none is left.
    pub fn is_empty(&self) -> bool
        ensures empty { result ≡ is_empty self.now }
    {
        self.texts.as_slice().len().saturating_sub(self.at) == 0
    }

    /// The same once more.
    ///
    /// `NoMemory` if it can't be counted.
    pub fn copy(&self) -> Result<Self, NoMemory>
        ensures copied { IfOk result (λ rest. rest ≡ self.now) }
    {
        Ok(Rest {
            texts: self.texts.clone()?,
            at: self.at,
        })
    }
}
