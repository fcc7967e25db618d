//! What a memcached may answer to calls, what a reply tells of the key's item, and laws of both.
#![tactic(auto)]

mod beside;
mod call_name;
mod fact;
mod laws;
mod left;
mod making;
mod needs;
mod said;
mod shown;
mod values;

pub use beside::{holds_without, may_hold_beside};
pub use call_name::CallName;
pub use fact::Fact;
pub use laws::{
    a_join_has_a_rest, a_legal_list_leads, a_need_has_a_source, a_source_is_not_shared,
    a_step_is_allowed, an_answer_tells, facts_of_an_item_agree, what_turned_was_made,
};
pub use left::left_by;
pub use making::{is_need, may_make};
pub use needs::{item_fact, need_of, value_fact};
pub use said::Said;
pub use shown::Shown;
pub use values::{may_read, padded_number};
