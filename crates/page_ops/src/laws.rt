ghost use Rattle.std.specs.Prelude.{List, length, IsPermutation};
ghost use Rattle.std.specs.List.{range_with_len};
ghost use Rattle.std.specs.List.Sorted.{IsSorted};
ghost use Rattle.std.specs.Ordering.{nat_cmp, then_cmp};
ghost use Rattle.esql_types.specs.declared.value.Value.{Value};
ghost use Rattle.esql_plan.specs.declared.step.PlanKey.{PlanKey};
ghost use Rattle.page_ops.specs.Orders.{order_of_places, places_in_order};

/// A law: the places of rows in order are all of their places, each once.
pub fn each_place_once()
    ensures { (keys : List PlanKey) (rows : List (List (List Value))) → IsPermutation (range_with_len 0 (length rows)) (places_in_order keys rows) }
{}

/// A law: the places of rows in order stand by the rows at them, and where the rows tie by the places themselves.
pub fn ties_stand_by_place()
    ensures { (keys : List PlanKey) (rows : List (List (List Value))) → IsSorted (then_cmp (order_of_places keys rows) nat_cmp) (places_in_order keys rows) }
{}
