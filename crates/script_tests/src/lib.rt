// Scripts, good and bad, and sessions whose set-up is refused.
#![tactic(auto)]

#[cfg(test)]
mod reading;
#[cfg(test)]
mod set_up;
