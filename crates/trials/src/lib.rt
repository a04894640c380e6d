// Lines and whole texts with the answers that the rules give them, worked out by hand.
#![tactic(auto)]

#[cfg(test)]
mod lines_by_example;
#[cfg(test)]
mod marks_by_example;
#[cfg(test)]
mod settings_by_example;
#[cfg(test)]
mod texts;
