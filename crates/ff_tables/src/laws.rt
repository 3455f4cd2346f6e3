//! That the rows, which are stated as tests on values, are those of the orders of three and of four faces; and that more that is
//! known forces more.
ghost use Rattle.std.specs.Prelude.{◌≡◌, map, length};
ghost use Rattle.ff_tables.specs.declared.terms.Kind.TheVariants as kind;
ghost use Rattle.ff_tables.specs.Rows.{rows_of};
ghost use Rattle.ff_tables.specs.MoreKnown.{MoreForcesMore, MoreValuesForceMore, DeadStaysDead};
ghost use Rattle.ff_tables.specs.Listed.{three_values, orders_of_three, four_values, apart_orders};

/// A law: the rows of transitivity are the values of the three pairs in the six orders of three faces, those
/// of taco-taco the values of the six pairs in the sixteen orders of four faces in which two pairs don't
/// interleave, and the other two kinds have two rows.
pub fn rows_are_orders()
    ensures transitivity { rows_of kind.Transitivity ≡ map three_values orders_of_three }
    ensures taco_taco { rows_of kind.TacoTaco ≡ map four_values apart_orders }
    ensures six { length (rows_of kind.Transitivity) ≡ 6 }
    ensures sixteen { length (rows_of kind.TacoTaco) ≡ 16 }
    ensures taco_tortilla { length (rows_of kind.TacoTortilla) ≡ 2 }
    ensures tortilla_tortilla { length (rows_of kind.TortillaTortilla) ≡ 2 }
{}

/// A law: what a constraint forces from what is known, as a test or as a function says it, it forces from more; and a constraint
/// that is dead stays so.
pub fn more_known_forces_more()
    ensures tests { MoreForcesMore }
    ensures values { MoreValuesForceMore }
    ensures dead { DeadStaysDead }
{}
