//! The check of the law: whether a line is one that the log may have after a history of its
//! clients and, where it is not, which clause is broken first, and where.
#![tactic(auto)]

mod behind;
mod covered;
mod fallen;
mod finished;
mod floors;
mod index;
mod invoked;
mod ordered;
mod pairs;
mod places;
mod reaches;
mod reads;
mod records;
mod slices;
mod tails;
mod told;
mod trims;
mod unique;
mod verdict;

pub use behind::behind_breach;
pub use covered::covered_breach;
pub use fallen::tails_breach;
pub use finished::finished_breach;
pub use floors::{highest_floor, raised};
pub use index::KeyIndex;
pub use invoked::invoked_breach;
pub use ordered::ordered_breach;
pub use pairs::{first_below, first_pair, first_row};
pub use places::{limit, limits, lowest, lowest_places};
pub use reaches::{Reach, reaches_of};
pub use reads::{asked_by, asked_from, fits_ask};
pub use records::is_invoked_with;
pub use slices::slices_breach;
pub use tails::{forced_key, least_tails};
pub use told::{Names, Told, entry_key, entry_keys, event_key, event_keys};
pub use trims::trims_breach;
pub use unique::unique_breach;
pub use verdict::{Verdict, check};
