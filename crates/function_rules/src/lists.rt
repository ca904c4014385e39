//! Laws of the functions on lists.

ghost use Rattle.std.specs.Prelude.{◌≡◌, ◌++◌, ◌-◌, Bool, false, ℤ, pos, negsuc, List, [], ◌∷◌, length, if◌then◌else◌};
ghost use Rattle.std.specs.Cmp.{IsEquivalence, IsTotalOrder};
ghost use Rattle.std.specs.List.{All, Contains, IsDistinct, list_any};
ghost use Rattle.std.specs.List.Sorted.{IsPermutation, IsSorted};
ghost use Rattle.std.specs.Ordering.{is_gt, is_lt};
ghost use Rattle.std.specs.declared.cmp.Ordering.{Ordering};
ghost use Rattle.std.specs.declared.cmp.Ordering.TheVariants.{Equal};
ghost use Rattle.function_rules.specs.Lists.{distinct_of, greatest_of, least_of, slice_of, sorted_by};

/// A law: a list put in order has the values of the list, each as often.
pub fn sorting_keeps_the_values<Item>()
    ensures { (order : Item → Item → Ordering) (items : List Item) → IsPermutation items (sorted_by order items) }
{}

/// A law: a list put in order stands in this order.
pub fn sorting_puts_in_order<Item>()
    ensures { (order : Item → Item → Ordering) (items : List Item) → IsTotalOrder order → IsSorted order (sorted_by order items) }
{}

/// A law: where only equal values tie, no other list has these values in this order.
pub fn sorting_has_one_answer<Item>()
    ensures { (order : Item → Item → Ordering) (items sorted : List Item) → IsTotalOrder order → ((left right : Item) → order left right ≡ Equal → left ≡ right) → IsPermutation items sorted → IsSorted order sorted → sorted ≡ sorted_by order items }
{}

/// A law: of the distinct values of a list no two are the same.
pub fn distinct_values_differ<Item>()
    ensures { (same : Item → Item → Bool) (items : List Item) → IsDistinct same (distinct_of same items) }
{}

/// A law: a value is the same as one of a list's distinct values exactly where it is the same as one of the list.
pub fn distinct_values_are_all<Item>()
    ensures { (same : Item → Item → Bool) (items : List Item) (sought : Item) → IsEquivalence same → list_any (λ item. same item sought) (distinct_of same items) ≡ list_any (λ item. same item sought) items }
{}

/// A law: distinct values stand by their first places: one more value of the list comes last, and only where none before
/// it is the same.
pub fn distinct_values_by_first_place<Item>()
    ensures { (same : Item → Item → Bool) (items : List Item) (item : Item) → distinct_of same (items ++ item ∷ []) ≡ (if list_any (λ earlier. same earlier item) items then distinct_of same items else distinct_of same items ++ item ∷ []) }
{}

/// A law: a slice is a part of its list.
pub fn slice_is_a_part<Item>()
    ensures { (items : List Item) (start end : ℤ) → (front : List Item) × ((back : List Item) × (items ≡ front ++ slice_of items start end ++ back)) }
{}

/// A law: a slice from the place 0 to the last place is the whole list.
pub fn slice_to_the_last_place<Item>()
    ensures { (items : List Item) → slice_of items (pos 0) (pos (length items - 1)) ≡ items }
{}

/// A law: a slice from the place 0 to the place -1, which is the last, is the whole list.
pub fn slice_to_the_end<Item>()
    ensures { (items : List Item) → slice_of items (pos 0) (negsuc 0) ≡ items }
{}

/// A law: the least value of a list is one of its values, and none of them is less.
pub fn none_is_less<Item>()
    ensures { (order : Item → Item → Ordering) (items : List Item) (least : Item) → IsTotalOrder order → least_of order items ≡ least ∷ [] → Contains items least × All (λ item. is_lt (order item least) ≡ false) items }
{}

/// A law: the greatest value of a list is one of its values, and none of them is greater.
pub fn none_is_greater<Item>()
    ensures { (order : Item → Item → Ordering) (items : List Item) (greatest : Item) → IsTotalOrder order → greatest_of order items ≡ greatest ∷ [] → Contains items greatest × All (λ item. is_gt (order item greatest) ≡ false) items }
{}
