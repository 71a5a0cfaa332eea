//! Tests of the commands that no case shows: long inputs, and reads, writes and packets that fail.

#[cfg(test)]
mod tests;
