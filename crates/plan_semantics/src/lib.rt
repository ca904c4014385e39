//! What a plan means over tables: the rows after its steps, its failures, the parts of it that can fail, when it is well
//! formed, and when two plans agree; with the laws of these.
//!
//! Read its specs in this order: `Tables`, `Orders`, `Groups`, `Stats`, `Taken`, `Steps`, `Agrees`, `Plans`, `Parts`, `Used`,
//! `Aggregates`, `WellFormed`, `Laws`, `GroupLaws`.
#![tactic(auto)]

mod group_laws;
mod laws;

pub use group_laws::{
    all_rows_are_counted, groups_differ, keys_have_groups, one_group_without_columns,
    one_value_one_key, rows_are_in_no_other, rows_are_in_their_groups,
};
pub use laws::{
    agree_back, agree_through, each_agrees, empty_policies_give_null, equal_agree,
    expressions_read_their_columns, failures_split, groks_have_their_kinds, new_columns_hold,
    null_is_cut_to_null, null_matches_nothing, own_nodes_are_orderly, plans_fail_below,
    plans_fail_by_parts, plans_fit_rows, plans_show_kinds, rows_keep_kinds, rows_split,
    steps_keep_columns, steps_make_once, steps_read_their_columns, values_fail_below,
    values_fail_by_parts, values_fail_by_rows, values_have_their_kind,
};
