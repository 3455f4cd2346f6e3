//! Laws of accordions.
ghost use Rattle.ff_make.specs.Laws.{AccordionIsOne, SomeAccordion};

/// Accordions of as many panels are the same pattern, and there is one of each number of panels that `make` takes.
pub fn accordion_is_one()
    ensures one { AccordionIsOne }
    ensures some { SomeAccordion }
{}
