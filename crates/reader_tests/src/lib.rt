// Examples of what the reader takes and refuses.
#![tactic(auto)]

#[cfg(test)]
mod evidence;
#[cfg(test)]
mod tables;
