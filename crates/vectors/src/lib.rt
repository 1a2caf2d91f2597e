//! The formats and the parts that hosts are made of, compared with vectors from outside: worked examples of the RFCs, and octets
//! whose checksums were summed apart. The buffers of a stream are compared with plain ones. It has no code of its own.
#![tactic(auto)]

#[cfg(test)]
mod tests;
