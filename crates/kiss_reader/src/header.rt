//! The names that a text gives once: those of its columns, and that of the state in which the machine starts.

ghost use Rattle.std.specs.Prelude.{◌≡◌, OnOk};
ghost use Rattle.kiss_reader.specs.Said.{form_said};
ghost use Rattle.kiss_reader.specs.Header.{nothing_given, header_said, header_behind};

use crate::form::Form;
use std::alloc::{AllocError, Global};

/// The names that the lines give, each as the first of them does.
#[derive(Drop)]
pub(crate) struct Header<'a> {
    pub reset: Option<&'a [u8]>,
    pub inputs: Option<Vec<&'a [u8]>>,
    pub outputs: Option<Vec<&'a [u8]>>,
}

impl<'a> Header<'a> {
    /// No names.
    pub(crate) fn new() -> Header<'a>
        ensures { header_said result ≡ nothing_given }
    {
        Header {
            reset: None,
            inputs: None,
            outputs: None,
        }
    }

    /// Keeps the names of a line, where none are given yet.
    pub(crate) fn keep(&mut self, alloc: Global, form: Form<'_, 'a>) -> Result<(), AllocError>
        ensures { OnOk result (header_said self.new ≡ header_behind (header_said self.old) (form_said form.entry)) }
    {
        match form {
            Form::Reset(name) => {
                if self.reset.is_none() {
                    self.reset = Some(name);
                }
            }
            Form::InputNames(names) => {
                if self.inputs.is_none() {
                    self.inputs = Some(names.to_vec(alloc)?);
                }
            }
            Form::OutputNames(names) => {
                if self.outputs.is_none() {
                    self.outputs = Some(names.to_vec(alloc)?);
                }
            }
            _ => {}
        }
        Ok(())
    }
}
