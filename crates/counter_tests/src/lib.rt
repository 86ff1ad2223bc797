// Tests of the counter: every small store against the rule as a table, many requests while power fails, and the writes as a device sees them.
#![tactic(auto)]

#[cfg(test)]
mod recorder;
#[cfg(test)]
mod requests;
#[cfg(test)]
mod table;
