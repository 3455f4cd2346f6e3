//! The line for words that the program does not know.
ghost use Rattle.std.specs.Prelude.{◌≡◌, IfOk};
ghost use Rattle.ff_top.specs.Texts.{usage_line};

use ff_tables::{NoMemory, Text};
use std::alloc::Global;

/// The line for words that aren't of the program's form.
pub fn usage_text(alloc: Global) -> Result<Text, NoMemory>
    ensures { IfOk result (λ text. text ≡ usage_line) }
{
    Ok(Text::of(String::from_str(
        alloc,
        "usage: flatfold solve|check|bench|lines|make COUNT [--budget N] [--workers N]\n",
    )?))
}
