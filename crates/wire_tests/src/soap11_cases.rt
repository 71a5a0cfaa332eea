//! Tests of `rm_wire::soap11`: envelopes of SOAP 1.1 as they are read, and the texts that messages are lifted and
//! lowered to, byte for byte.

#[cfg(test)]
mod forms;
#[cfg(test)]
mod kinds;
#[cfg(test)]
mod rows;
#[cfg(test)]
mod texts;
#[cfg(test)]
mod worked;
