//! The lines behind the first: each sets a value or is an input.

ghost use Rattle.qc_script.specs.Items.{IsItemRead, item_place};
ghost use Rattle.std.specs.Prelude.{◌≡◌, IfOk};

use crate::lines::read_line;
use crate::set_lines::read_setting;
use crate::settings::Setting;
use qc_base::Side;
use qc_state::Input;
use std::alloc::{AllocError, Global};

/// What a line behind the first says.
#[derive(Drop)]
pub enum Item {
    /// It sets a value.
    Set(Setting),
    /// It is an input.
    Input(Input),
}

impl Item {
    /// The place of its line: that of a set line among the set lines, and for an input the one behind them all.
    pub fn place(&self) -> u8
        ensures { result ≡ item_place self.now }
    {
        match self {
            Item::Set(setting) => setting.place(),
            Item::Input(_) => 21,
        }
    }
}

/// What this line, LF excluded, says on this side behind a line of the place `before`. There is nothing where no script
/// has the line there.
pub fn read_item(
    alloc: Global,
    side: Side,
    before: u8,
    text: &[u8],
) -> Result<Option<Item>, AllocError>
    ensures { IfOk result (IsItemRead side before text.now) }
{
    if let Some(input) = read_line(alloc, text)? {
        return Ok(Some(Item::Input(input)));
    }
    let Some(setting) = read_setting(alloc, side, text)? else {
        return Ok(None);
    };
    if before < setting.place() {
        Ok(Some(Item::Set(setting)))
    } else {
        Ok(None)
    }
}
