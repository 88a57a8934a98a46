//! Classes, threat lines and searches beside plain programs on small games, and on rows worked by
//! hand, and each call on two forests once. Nothing of the product calls it.
#![tactic(auto)]

#[cfg(test)]
mod compared;
#[cfg(test)]
mod expanding;
#[cfg(test)]
mod families;
#[cfg(test)]
mod forests;
#[cfg(test)]
mod plain;
#[cfg(test)]
mod plain_threats;
#[cfg(test)]
mod rows;
#[cfg(test)]
mod search_rows;
#[cfg(test)]
mod settling;
#[cfg(test)]
mod switching;
#[cfg(test)]
mod tally;
#[cfg(test)]
mod threat_rows;
#[cfg(test)]
mod told;
