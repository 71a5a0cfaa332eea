//! Tests of `message_reader` and `message_writer`, besides those of `wire_cases`: the texts of faults and of messages,
//! byte for byte, and what is read from envelopes of many forms.

#[cfg(test)]
mod blocks;
#[cfg(test)]
mod bodies;
#[cfg(test)]
mod built;
#[cfg(test)]
mod documents;
#[cfg(test)]
mod faults;
#[cfg(test)]
mod forms;
#[cfg(test)]
mod kinds;
#[cfg(test)]
mod messages;
#[cfg(test)]
mod read_faults;
