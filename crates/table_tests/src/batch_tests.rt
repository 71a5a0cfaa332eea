//! Tests of the bytes of records, and of what tables answer to records that don't fit.

#[cfg(test)]
mod kinds;
#[cfg(test)]
mod parts;
#[cfg(test)]
mod refused;
