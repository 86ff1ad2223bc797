// Tests of SHA-256: messages and rows against digests from an outside tool, streams that are cut anywhere, rows against their bytes, and eight rows side by side against the same one by one.
#![tactic(auto)]

#[cfg(test)]
mod eights;
#[cfg(test)]
mod messages;
#[cfg(test)]
mod random;
#[cfg(test)]
mod rows;
#[cfg(test)]
mod streams;
