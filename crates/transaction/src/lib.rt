// The configuration transaction: every call of document 01, in one place. A call first finds its answer and its next record
// from sizes alone, by a step of one of the crates named with `step`; only where that is no refusal are
// bytes moved. The steps are questions that the transaction answers under its own name, as `would_commit`: what a call would
// answer on what it is lent, asked by those who build above before anything moves. `begin_as` is either begin, by its flag. `AREA`
// and `TABLE` are the sizes of what is lent, which `is_area`, `is_table` and `are_pairs` ask, and `ACTIONS` the most actions.
#![tactic(auto)]

pub use areas::{SIZE as AREA, is_sized as is_area};
pub use batch::{LIMIT as ACTIONS, WORDS as TABLE, are_pairs, is_sized as is_table};
pub use call_asks::{ask_rollback, ask_structure, ask_update};
pub use call_begins::{begin, begin_structural};
pub use call_ends::{commit, refresh};
pub use call_payloads::{edit, open};
pub use call_recoveries::{recover, recover_retained};
pub use call_reports::{report_rollback, report_update};
pub use call_stages::begin_as;
pub use call_stamps::{check, stamp};
pub use call_structure::report_structure;
pub use step_asks::{ask_structure as would_ask_structure, ask_update as would_ask_update};
pub use step_begins::begin as would_begin;
pub use step_ends::{commit as would_commit, refresh as would_refresh};
pub use step_opens::open as would_open;
pub use step_recoveries::{recover as would_recover, recover_retained as would_recover_retained};
pub use step_rollbacks::ask_rollback as would_ask_rollback;
pub use step_structure::report_structure as would_report_structure;
pub use step_undos::report_rollback as would_report_rollback;
pub use step_updates::report_update as would_report_update;
