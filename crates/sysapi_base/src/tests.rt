//! Outside vectors, and calls that can succeed and fail.

mod ids;
mod memory;
mod moments;
mod shared;
mod streams;
