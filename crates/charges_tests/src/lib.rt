// The charges on examples, through the calls that a program makes.
#![tactic(auto)]

#[cfg(test)]
mod figures;
#[cfg(test)]
mod helpers;
#[cfg(test)]
mod layers;
#[cfg(test)]
mod refusals;
#[cfg(test)]
mod tables;
