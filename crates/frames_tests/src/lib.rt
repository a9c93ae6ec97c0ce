// Tests of the values, the carriers and the rules: the edges of every range, frame times, and delays.
#![tactic(auto)]

#[cfg(test)]
mod carriers;
#[cfg(test)]
mod messages;
#[cfg(test)]
mod rules;
