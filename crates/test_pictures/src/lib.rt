//! Tests of pixels: lines of pixel words against the plain loop over pixels, and values that no frame shows.
#![tactic(auto)]

#[cfg(test)]
mod kernels;
#[cfg(test)]
mod values;
