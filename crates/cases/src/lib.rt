// Tables of cases for the other crates: what no contract can show is run here.
#![tactic(auto)]

#[cfg(test)]
mod graphs;
#[cfg(test)]
mod jobs;
#[cfg(test)]
mod kinds;
