//! Tests that cross the crates: whole runs of the top call over records in memory.
#![tactic(auto)]

#[cfg(test)]
mod causes;
#[cfg(test)]
mod commands;
#[cfg(test)]
mod faults;
#[cfg(test)]
mod migrated;
#[cfg(test)]
mod order;
#[cfg(test)]
mod packets;
#[cfg(test)]
mod places;
#[cfg(test)]
mod records;
#[cfg(test)]
mod releases;
#[cfg(test)]
mod replay_faults;
#[cfg(test)]
mod replayed;
#[cfg(test)]
mod replayed_runs;
#[cfg(test)]
mod runs;
#[cfg(test)]
mod shown;
