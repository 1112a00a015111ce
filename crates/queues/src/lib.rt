// The queues of all ranks: requests that wait to be fetched and deliveries that wait to be written, as lists of entries. Cleared arrays are empty
// queues.
#![tactic(auto)]

pub mod ending;
pub mod transfers;
