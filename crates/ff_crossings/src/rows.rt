//! Laws of rows: what they say of an order of faces.
ghost use Rattle.ff_tables.specs.declared.terms.Kind.TheVariants as kind;
ghost use Rattle.ff_crossings.specs.RowMeanings.{EqualRows, RowsByTest, TacoTacoRows, TransitivityRows};

/// Whether values are a row is told by the test of the kind.
pub fn rows_by_test()
    ensures { RowsByTest }
{}

/// A row of taco-tortilla, and one of tortilla-tortilla, is two equal values.
pub fn equal_rows()
    ensures taco_tortilla { EqualRows kind.TacoTortilla }
    ensures tortilla_tortilla { EqualRows kind.TortillaTortilla }
{}

/// A row of transitivity is three values that go round neither way.
pub fn transitivity_rows()
    ensures { TransitivityRows }
{}

/// A row of taco-taco is the values of four faces that can be listed, where their two pairs don't interleave.
pub fn taco_taco_rows()
    ensures { TacoTacoRows }
{}
