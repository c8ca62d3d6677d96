// The unit: the calls that a door unit offers, and the types of their answers. Nothing else is public here, and no call has a
// `requires`. Each call is stated, coded and proved in the crate that decides it; a crate that calls the unit rests on these too.

#![tactic(auto)]

pub use bundles::{first_event, first_event_part};
pub use cords::document_table;
pub use event::Refusal;
pub use reports::{MapFigures, map, order, verdict, write_out};
pub use store::{Held, look_up};
pub use takes::{Placed, Taken, Tally, start, take, take_bundle};
pub use tally::{take_bundle_counted, take_counted};
pub use text::text;
pub use verdicts::Verdict;
