//! The whole script: its first line, and those that set values and are inputs.

ghost use Rattle.qc_script.specs.Items.{inputs_after, settings_after};
ghost use Rattle.qc_script.specs.Script.{lines_of, IsScript, IsRefusal};
ghost use Rattle.std.specs.Prelude.{◌≡◌, List, IfOk, IfErr, OnOk, MatchResult};

use crate::fields::split_at_byte;
use crate::items::{Item, read_item};
use crate::set_lines::read_side;
use crate::settings::Settings;
use qc_state::Input;
use std::alloc::{AllocError, Global};

/// Why bytes are no script.
#[derive(Clone, Copy, Debug, PartialEq, Eq)]
pub enum ScriptError {
    /// Line so many, counted from 1, is the first with which no script goes on after the lines before it. An empty text
    /// is `BadLine(1)`.
    BadLine(u64),
    /// There was no memory for what the script says.
    OutOfMemory,
}

impl From<AllocError> for ScriptError {
    ghost use Rattle.std.specs.Prelude.{◌≡◌};
    ghost use Rattle.qc_script.specs.declared.script.ScriptError.{ScriptError};

    ghost from_gives = { λ _ error. error ≡ ScriptError.OutOfMemory };

    fn from(_error: AllocError) -> ScriptError {
        ScriptError::OutOfMemory
    }
}

/// What a script says.
#[derive(Drop)]
pub struct Script {
    /// What its set lines say.
    pub settings: Settings,
    /// Its inputs, in their order.
    pub inputs: Vec<Input>,
}

impl Script {
    /// Takes what the next line says. After want of memory the script is not to be used.
    fn take(&mut self, item: Item) -> Result<(), AllocError>
        ensures settings { OnOk result (self.new.settings ≡ settings_after self.old.settings item) }
        ensures inputs { OnOk result (self.new.inputs.items ≡ inputs_after self.old.inputs.items item) }
    {
        match item {
            Item::Set(setting) => self.settings.set(setting),
            Item::Input(input) => self.inputs.push(input)?,
        }
        Ok(())
    }
}

/// The script that these bytes are: what its set lines say, and its inputs.
///
/// `BadLine`: they are no script; it names the first line with which none goes on. `OutOfMemory`: there was no memory
/// for what they say.
pub fn read_script(alloc: Global, bytes: &[u8]) -> Result<Script, ScriptError>
    ensures script { IfOk result (λ s. IsScript (lines_of bytes.now) s.settings s.inputs.items) }
    ensures refusal { IfErr result (IsRefusal (lines_of bytes.now)) }
    ensures only { (settings : Settings) → (inputs : List Input) → IsScript (lines_of bytes.now) settings inputs → MatchResult result (λ s. (s.settings ≡ settings) × (s.inputs.items ≡ inputs)) (λ e. e ≡ ScriptError.OutOfMemory) }
{
    let Some((side, mut rest)) = read_side(bytes) else {
        return Err(ScriptError::BadLine(1));
    };
    let mut script = Script {
        settings: Settings::new(side),
        inputs: Vec::new(alloc),
    };
    // So many lines are read, and the last of them has this place.
    let mut count: u64 = 1;
    let mut place = 0;
    while !rest.is_empty() {
        count += 1;
        let Some((text, others)) = split_at_byte(rest, b'\n') else {
            return Err(ScriptError::BadLine(count));
        };
        let Some(item) = read_item(alloc, side, place, text)? else {
            return Err(ScriptError::BadLine(count));
        };
        place = item.place();
        script.take(item)?;
        rest = others;
    }
    Ok(script)
}
