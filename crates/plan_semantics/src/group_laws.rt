//! Laws of groups.

ghost use Rattle.plan_semantics.specs.GroupLaws.{OneGroupWithoutColumns, AllRowsAreCounted, OneValueOneKey, KeysHaveGroups, GroupsDiffer, RowsAreInTheirGroups, RowsAreInNoOther};

/// A law: without columns to group by there is one row, over no rows too.
pub fn one_group_without_columns()
    ensures { OneGroupWithoutColumns }
{}

/// A law: without columns to group by, COUNT(*) is the number of all rows, at most the greatest long.
pub fn all_rows_are_counted()
    ensures { AllRowsAreCounted }
{}

/// A law: cells of one value each have one key, which is themselves.
pub fn one_value_one_key()
    ensures { OneValueOneKey }
{}

/// A law: each key of a row is the key of a group.
pub fn keys_have_groups()
    ensures { KeysHaveGroups }
{}

/// A law: no two groups have one key.
pub fn groups_differ()
    ensures { GroupsDiffer }
{}

/// A law: each row is in the group of each of its keys.
pub fn rows_are_in_their_groups()
    ensures { RowsAreInTheirGroups }
{}

/// A law: each row is in no group but those of its keys.
pub fn rows_are_in_no_other()
    ensures { RowsAreInNoOther }
{}
