// The book on examples, through the calls that a program makes.
#![tactic(auto)]

#[cfg(test)]
mod entries;
#[cfg(test)]
mod helpers;
#[cfg(test)]
mod postings;
#[cfg(test)]
mod scripts;
