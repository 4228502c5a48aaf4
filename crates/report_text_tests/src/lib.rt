//! Tests of the text of a report, over the names of nets that are read from texts. Nothing else is
//! here, so that `report_text` itself is proved once.
#![tactic(auto)]

#[cfg(test)]
mod netlists;
#[cfg(test)]
mod reported;
#[cfg(test)]
mod table;
#[cfg(test)]
mod tests;
