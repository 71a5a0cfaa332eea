//! Tests of `message_reader` and `message_writer`: whole messages as they are read in the styles of several stacks, in
//! pieces by `soap_pieces`, the greatest length, and messages that break off. Other documents that are refused are
//! cases of the command `check`.

#[cfg(test)]
mod forms;
#[cfg(test)]
mod pieces;
#[cfg(test)]
mod refusals;
#[cfg(test)]
mod styles;
