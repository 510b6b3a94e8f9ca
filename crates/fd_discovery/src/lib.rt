//! The functional dependencies that given rows obey.
//!
//! A dependency `X -> A` is minimal where no proper subset of X determines A (Huhtala, Kärkkäinen,
//! Porkka and Toivonen 1999). For other searches there are the numbers of the rows' values with the
//! orders of the columns (`CodeColumns`), rows in an order by counting (`order_by`), the leaders of
//! rows on one column more (`refine_leaders`) and the attributes that no dependency gives
//! (`attributes_not_given`).
//!
//! Promises: `discover` gives exactly the minimal functional dependencies that rows obey, in order;
//! the list implies a functional dependency between columns exactly where the rows obey it.
#![tactic(auto)]

mod counting;
mod discovering;
mod leaders;
mod ordering;
mod searching;
mod table;

pub use counting::{all_rows, order_by};
pub use discovering::discover;
pub use leaders::refine_leaders;
pub use ordering::RowOrder;
pub use searching::attributes_not_given;
pub use table::CodeColumns;
