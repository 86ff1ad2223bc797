// Tests of signatures that are looked at where their numbers lie, and of what is worked out eight at a time.
#![tactic(auto)]

#[cfg(test)]
mod eights;
#[cfg(test)]
mod flat;
#[cfg(test)]
mod one_by_one;
