//! What a body may name.
ghost use Rattle.std.specs.Prelude.{◌≡◌, ◌<◌, ◌^◌, length};
ghost use Rattle.c_parser.specs.FirstForm.Reading as spec;

use crate::first_form::names::Names;
use c_words::word::Mode;

/// The variables' names and then those of the functions so far.
#[derive(Drop)]
pub struct Scope<'a> {
    pub mode: Mode,
    /// How many of the names are those of variables.
    pub variables: usize,
    pub names: Names<'a>,
}

impl<'a> Scope<'a> {
    /// The place of a variable in the declarations.
    #[tactic(auto, unfolding(crate::specs::FirstForm::Reading::variable_of))]
    pub fn variable(&self, name: &str) -> Option<u32>
        requires { length self.now.names < 2 ^ 32 }
        ensures { result ≡ spec.variable_of self.now.variables self.now.names name.now }
    {
        let place = self.names.place(name)?;
        if place < self.variables {
            Some(place as u32)
        } else {
            None
        }
    }

    /// The place of a function in the text.
    #[tactic(auto, unfolding(crate::specs::FirstForm::Reading::function_of_name))]
    pub fn function(&self, name: &str) -> Option<u32>
        requires { length self.now.names < 2 ^ 32 }
        ensures { result ≡ spec.function_of_name self.now.variables self.now.names name.now }
    {
        let place = self.names.place(name)?;
        if place < self.variables {
            None
        } else {
            Some((place - self.variables) as u32)
        }
    }
}
