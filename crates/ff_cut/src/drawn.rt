//! From bytes to the drawing of the lines that they spell.
ghost use Rattle.std.specs.Prelude.{◌≤◌, IfErr, IfOk, length};
ghost use Rattle.std.specs.List.{All};
ghost use Rattle.ff_types.specs.declared.limits.TheConstants.{MOST_BYTES};
ghost use Rattle.ff_lines.specs.declared.items.TheConstants.{MOST_LINES};
ghost use Rattle.ff_lines.specs.Lines.{IsProper};
ghost use Rattle.ff_lined.specs.Reading.{AreLinesIn};
ghost use Rattle.ff_cut.specs.Drawn.{DrawsLines, WhyNoDrawing};

use ff_lined::read_lines;
use ff_lines::{LineItem, draw};
use ff_tables::Items;
use ff_types::{No, Pattern};
use std::alloc::Global;

// The lines that the bytes spell.
fn lines_in(alloc: Global, bytes: &[u8]) -> Result<Items<LineItem>, No>
    requires { length bytes.now ≤ MOST_BYTES }
    ensures read { IfOk result (AreLinesIn bytes.now) }
    ensures few { IfOk result (λ lines. length lines ≤ MOST_LINES) }
    ensures proper { IfOk result (All IsProper) }
    ensures refused { IfErr result (WhyNoDrawing bytes.now) }
{
    read_lines(alloc, bytes)
}

// Their drawing.
fn drawing_of(alloc: Global, bytes: &[u8], lines: &Items<LineItem>) -> Result<Pattern, No>
    requires within { length bytes.now ≤ MOST_BYTES }
    requires read { AreLinesIn bytes.now lines.now }
    requires few { length lines.now ≤ MOST_LINES }
    requires proper { All IsProper lines.now }
    ensures drawn { IfOk result (DrawsLines bytes.now) }
    ensures refused { IfErr result (WhyNoDrawing bytes.now) }
{
    let _ = bytes;
    draw(alloc, lines)
}

// The drawing of the lines that the bytes spell.
pub(crate) fn drawn(alloc: Global, bytes: &[u8]) -> Result<Pattern, No>
    requires { length bytes.now ≤ MOST_BYTES }
    ensures drawn { IfOk result (DrawsLines bytes.now) }
    ensures refused { IfErr result (WhyNoDrawing bytes.now) }
{
    let lines = lines_in(alloc, bytes)?;
    drawing_of(alloc, bytes, &lines)
}
