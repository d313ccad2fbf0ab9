//! Tests of images and of the assembler: worked rows, damaged images, and branches at the edges of their widths.
//! What is expected comes from the formats and from other programs, never from the crates that are tested.
#![tactic(auto)]

#[cfg(test)]
mod images;
#[cfg(test)]
mod items;
#[cfg(test)]
mod lists;
