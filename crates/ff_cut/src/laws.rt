//! Laws of the answers to `lines`.
ghost use Rattle.ff_cut.specs.Laws.{DrawingIsOne, LinesAreOne};
ghost use Rattle.ff_cut.specs.Answers.{OneDrawing, SomeDrawing};

/// Lines that may be drawn come to one drawing or to one refusal, and to one at least.
pub fn drawing_is_one()
    ensures { DrawingIsOne }
{}

/// Bytes come to one list of lines or to one refusal, and to one at least.
pub fn lines_are_one()
    ensures { LinesAreOne }
{}

/// Two answers to the same bytes are the same: the lines are drawn in both or in none, and the text is one.
pub fn one_drawing()
    ensures { OneDrawing }
{
    drawing_is_one();
    lines_are_one();
}

/// It can't be that bytes have no answer.
pub fn some_drawing()
    ensures { SomeDrawing }
{
    drawing_is_one();
    lines_are_one();
}
